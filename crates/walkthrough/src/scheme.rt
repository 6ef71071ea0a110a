// The valve body's scheme, judged dimension by dimension.
use crate::faces::FACES;
use crate::faces::Face::{self, EndFace, Flange, Groove, Seat, Shoulder};
use arithmetic::{Arithmetic, Residue, is_zero};
use columns::Greatest;
use sets::{OpenSet, Reply, SealedSet, Verdict};
use std::{fmt, io};

// How far one face lies from another, in hundredths of a millimetre.
#[derive(Clone, Copy)]
struct Dimension {
    from: Face,
    to: Face,
    length: i32,
}

impl fmt::Display for Dimension {
    fn fmt<W: fmt::Write>(&self, f: &mut fmt::Formatter<W>) -> fmt::Result {
        let Dimension { from, to, .. } = self;
        write!(f, "{from} to {to}")
    }
}

// From, to, and how far.
const SCHEME: [(Face, Face, i32); 7] = [
    (Seat, Shoulder, 1840),
    (Shoulder, Flange, 2215),
    (Flange, Groove, 340),
    (Shoulder, Groove, 2555),
    (Groove, EndFace, 1130),
    (Seat, EndFace, 5525),
    (EndFace, Flange, -1471),
];

// One unknown for each face: minus one where it starts, one where it ends.
fn column_of(from: Face, to: Face) -> [Residue; 5] {
    FACES.map(|face| {
        if face == to {
            Residue(1)
        } else if face == from {
            Residue::bring(-1)
        } else {
            Residue(0)
        }
    })
}

// Judges the scheme, and asks what it settles.
pub fn judge_scheme(rt: &HostRuntime) -> io::Result<()> {
    println!(rt)?;
    println!(rt; "The scheme, dimension by dimension; 65478 stands for -1:")?;
    let mut drawing = Drawing {
        set: OpenSet::make(5, vec![in rt.alloc(); Residue(0); 35]?),
        held: [None; 5],
        verdicts: Vec::new(rt.alloc()),
    };
    for (from, to, length) in SCHEME {
        drawing.judge(rt, Dimension { from, to, length })?;
    }
    drawing.judge_at_once(rt)?;
    println!(rt; "What it settles:")?;
    let to_the_end = column_of(Shoulder, EndFace);
    drawing.ask(rt, "from the shoulder to the end face", &to_the_end)?;
    drawing.ask(rt, "the flange in space", &[0, 0, 1, 0, 0].map(Residue))?;
    drawing.finish(rt)
}

// The set that judges, the dimensions that it holds, in their places, and the numbers of all verdicts.
#[derive(Drop)]
struct Drawing {
    set: OpenSet<Residue>,
    held: [Option<Dimension>; 5],
    verdicts: Vec<u8>,
}

impl Drawing {
    fn judge(&mut self, rt: &HostRuntime, dimension: Dimension) -> io::Result<()> {
        let Dimension { from, to, length } = dimension;
        let target = Residue::bring(length);
        let mut answer = [Residue(0); 5];
        let verdict = self
            .set
            .offer(&column_of(from, to), target, &mut answer, &Greatest);
        if let Ok(verdict) = verdict {
            self.verdicts.push(verdict.number())?;
        }
        match verdict {
            Ok(Verdict::Taken(place)) => {
                if let Some(held) = self.held.get_mut(place) {
                    *held = Some(dimension);
                }
                println!(rt; "  {dimension} {length}: taken")
            }
            Ok(Verdict::Redundant) => {
                println!(rt; "  {dimension} {length}: redundant, for it is")?;
                show_parts(rt, &self.held, &answer)
            }
            Ok(Verdict::Clash(value)) => {
                println!(rt;
                    "  {dimension} {length}: a clash, for the code is {} by",
                    value.code()
                )?;
                show_parts(rt, &self.held, &answer)
            }
            Err(refusal) => println!(rt; "  {dimension}: refused, {}", refusal.number()),
        }
    }

    // Judges the scheme once more, in one batch by panels of three, and compares.
    fn judge_at_once(&self, rt: &HostRuntime) -> io::Result<()> {
        let mut set = OpenSet::make(5, vec![in rt.alloc(); Residue(0); 35]?);
        let columns = SCHEME.map(|(from, to, _)| column_of(from, to));
        let targets = SCHEME.map(|(_, _, length)| Residue::bring(length));
        let mut verdicts = [3; 7];
        let mut work = [Residue(0); 15];
        let judged = set.batch(
            &targets,
            columns.as_flattened(),
            &mut verdicts,
            3,
            &mut work,
            &Greatest,
        );
        let pivots_agree = (0..5).all(|k| set.pivot(k) == self.set.pivot(k));
        let agrees = judged.is_ok()
            && self.verdicts.as_slice() == verdicts.as_slice()
            && pivots_agree;
        let word = if agrees { "agree" } else { "differ" };
        println!(rt; "Judged once more, in one batch, verdicts and pivots {word}.")
    }

    // Pins the seat, seals the scheme, shows where every face lies, and gives the memory back.
    fn finish(mut self, rt: &HostRuntime) -> io::Result<()> {
        println!(rt; "With the seat pinned the scheme is full, and is sealed:")?;
        let seat = [1, 0, 0, 0, 0].map(Residue);
        let mut answer = [Residue(0); 5];
        let verdict = self.set.offer(&seat, Residue(0), &mut answer, &Greatest);
        let taken = matches!(verdict, Ok(Verdict::Taken(_)));
        println!(rt;
            "  seat at 0: {}",
            if taken { "taken" } else { "not taken" }
        )?;
        let sealed = self.set.seal();
        show_positions(rt, &sealed)?;
        println!(rt; "  {} elements of memory given back", sealed.end().len())
    }

    fn ask(&self, rt: &HostRuntime, name: &str, query: &[Residue; 5]) -> io::Result<()> {
        let mut answer = [Residue(0); 5];
        match self.set.enquire(query, &mut answer) {
            Ok(Reply::Fixed(value)) => {
                println!(rt; "  {name}: fixed at {}, which is", value.code())?;
                show_parts(rt, &self.held, &answer)
            }
            Ok(Reply::Free) => {
                println!(rt; "  {name}: free. Faces that move with it, and by how much:")?;
                show_parts(rt, &FACES.map(Some), &answer)
            }
            Err(refusal) => println!(rt; "  {name}: refused, {}", refusal.number()),
        }
    }
}

// Where the full scheme puts each face, and its determinant.
fn show_positions(rt: &HostRuntime, sealed: &SealedSet<Residue>) -> io::Result<()> {
    let mut positions = [Residue(0); 5];
    if let Err(refusal) = sealed.solution(&mut positions) {
        return println!(rt; "  not solved: refused, {}", refusal.number());
    }
    for (face, position) in FACES.iter().zip(&positions) {
        println!(rt; "  {face} lies at {}", position.code())?;
    }
    match sealed.determinant() {
        Ok(determinant) => println!(rt; "  the determinant is {}", determinant.code()),
        Err(refusal) => println!(rt; "  no determinant: refused, {}", refusal.number()),
    }
}

// The parts of a combination, with their factors.
fn show_parts<P: fmt::Display>(
    rt: &HostRuntime,
    parts: &[Option<P>],
    combination: &[Residue; 5],
) -> io::Result<()> {
    for (factor, part) in combination.iter().zip(parts) {
        match part {
            Some(part) if !is_zero(*factor) => println!(rt; "    {} times {part}", factor.code())?,
            _ => (),
        }
    }
    Ok(())
}
