// One task from beginning to end: a valve body, dimensioned along one axis.
#![tactic(auto)]

mod chain;
mod elimination;
mod faces;
mod scheme;

use arithmetic::{Arithmetic, Parity, Residue};
use chain::{chained, closes};
use columns::{Chooser, Greatest, KeepFree, Topmost};
use elimination::{Column, eliminated};
use faces::{FACES, Face};
use scheme::judge_scheme;
use std::io;

// From each face to the next, in hundredths of a millimetre.
const CHAIN: [i32; 4] = [1840, 2215, 340, 1130];

// From the seat to the end face.
const CLOSING: i32 = 5525;

fn main(rt: HostRuntime) -> io::Result<()> {
    println!(rt; "A valve body: faces along one axis, lengths in hundredths of a millimetre.")?;
    for ([from, to], length) in FACES.array_windows::<2>().zip(&CHAIN) {
        println!(rt; "  {from} to {to}: {length}")?;
    }
    println!(rt;
        "  {} to {}: {CLOSING} closes the chain",
        Face::Seat,
        Face::EndFace
    )?;
    close_the_chain(&rt)?;
    eliminate_by_hand(&rt)?;
    judge_scheme(&rt)
}

// The chain's sum against the closing dimension, right, off by one, and off by what cannot be told.
fn close_the_chain(rt: &HostRuntime) -> io::Result<()> {
    println!(rt)?;
    println!(rt; "In residues modulo 65479:")?;
    judge::<Residue>(rt, CLOSING)?;
    judge::<Residue>(rt, CLOSING + 1)?;
    println!(rt; "  65479 and 0 are one residue, so this one cannot be told from the first:")?;
    judge::<Residue>(rt, CLOSING + 65479)?;
    println!(rt)?;
    println!(rt; "By parity, which tells odd from even and nothing more:")?;
    judge::<Parity>(rt, CLOSING)?;
    judge::<Parity>(rt, CLOSING + 1)?;
    judge::<Parity>(rt, CLOSING + 2)
}

// One line on a closing dimension: what it is brought in as, beside the chain.
fn judge<T: Arithmetic>(rt: &HostRuntime, closing: i32) -> io::Result<()> {
    let sum = chained::<T>(&CHAIN).code();
    let goal = T::bring(closing);
    let word = if closes(&CHAIN, goal) {
        "agrees, so it is redundant"
    } else {
        "differs, so it is a clash"
    };
    println!(rt;
        "  closing {closing}: code {}, the chain's code is {sum}: {word}",
        goal.code()
    )
}

// "Seat to shoulder" is held; "flange to seat" is worked by it, and each chooser picks from what is left.
fn eliminate_by_hand(rt: &HostRuntime) -> io::Result<()> {
    let held = [-1, -1, 0].map(Residue::bring);
    let column = [1, 0, -1].map(Residue::bring);
    println!(rt)?;
    println!(rt;
        "One dimension worked by another. Unknowns: seat, shoulder, flange; 65478 stands for -1."
    )?;
    show(rt, "seat to shoulder, held and packed", &held)?;
    show(rt, "flange to seat", &column)?;
    let Ok(worked) = eliminated(&held, 0, column) else {
        return println!(rt; "  refused");
    };
    show(rt, "the same, worked", &worked)?;
    println!(rt;
        "  What is left of it stands beside the shoulder and the flange. As the next pivot,"
    )?;
    let [_, shoulder, flange] = worked.map(Residue::code);
    let rest = [shoulder, flange];
    let mut keep_free = KeepFree::over(Greatest);
    keep_free.mark(2);
    show_pick(rt, "topmost", &Topmost, &rest)?;
    show_pick(rt, "greatest", &Greatest, &rest)?;
    show_pick(rt, "greatest, the flange kept free,", &keep_free, &rest)
}

fn show(rt: &HostRuntime, name: &str, column: &Column) -> io::Result<()> {
    let [seat, shoulder, flange] = column.map(Residue::code);
    println!(rt; "  {name}: {seat}, {shoulder}, {flange}")
}

// What a chooser picks of the codes beside the shoulder and the flange.
fn show_pick(
    rt: &HostRuntime,
    name: &str,
    chooser: &impl Chooser,
    rest: &[u32; 2],
) -> io::Result<()> {
    let face = match chooser.choose(rest, &[1, 2]) {
        Some(0) => "the shoulder",
        Some(1) => "the flange",
        _ => "none",
    };
    println!(rt; "  {name} picks {face}")
}
