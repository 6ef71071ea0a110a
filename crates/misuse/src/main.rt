// A set used as it may be. `.ci/misuse` turns this program, a line at a time, into uses that the compiler refuses.
#![tactic(auto)]

use arithmetic::{Arithmetic, Residue};
use columns::Topmost;
use sets::OpenSet;
use std::io;

fn main(rt: HostRuntime) -> io::Result<()> {
    let memory = vec![in rt.alloc(); Residue(0); 3]?;
    let column = [Residue(2)];
    let mut answer = [Residue(0)];
    let mut set = OpenSet::make(1, memory);
    let taken = set
        .offer(&column, Residue(4), &mut answer, &Topmost)
        .is_ok();
    let before = set.enquire(&column, &mut answer).is_ok();
    let sealed = set.seal();
    let after = sealed.enquire(&column, &mut answer).is_ok();
    println!(rt; "offered: {taken}, enquired before the seal: {before}, after it: {after}")
}
