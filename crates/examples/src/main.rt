// The worked examples: proved of the definitions, and run.
#![tactic(auto)]

mod choices;
mod residues;

use choices::picked_places;
use residues::residue_codes;
use std::io;

fn main(rt: HostRuntime) -> io::Result<()> {
    let [half, minus_one, order] = residue_codes();
    println!(rt; "inverse of 2 in residues: {half}")?;
    println!(rt; "-1 brought in: {minus_one}")?;
    println!(rt; "65479 brought in: {order}")?;
    let [three, equals, kept_free, at_last] = picked_places();
    println!(rt; "greatest of 3, 65476, 6: {three:?}")?;
    println!(rt; "greatest of 4, 4: {equals:?}")?;
    println!(rt; "topmost of 7, 0, 2 with unknown 0 kept free: {kept_free:?}")?;
    println!(rt; "topmost of 7, 0, 0 with unknown 0 kept free: {at_last:?}")
}
