// Judges one scheme in each way. With no argument it prints what came out; with a number, how long that many repetitions took.
#![tactic(auto)]

mod judging;
mod scheme;
mod timing;

use judging::{Way, judge};
use scheme::Scheme;
use std::{env, io};
use timing::show_times;

const WAYS: [Way; 4] = [Way::Offers, Way::Batch(1), Way::Batch(8), Way::Batch(32)];

fn main(rt: HostRuntime) -> io::Result<()> {
    let scheme = Scheme::new(rt.alloc())?;
    for way in WAYS {
        let outcome = judge(rt.alloc(), &scheme, way)?;
        println!(rt; "{way}: {outcome}")?;
    }
    match repetitions(&rt)? {
        Some(times) => show_times(&rt, &scheme, &WAYS, times),
        None => Ok(()),
    }
}

// The first argument, if it is a number.
fn repetitions(rt: &HostRuntime) -> io::Result<Option<usize>> {
    let word = env::args(rt)?.nth(1);
    Ok(word.and_then(|word| word.parse::<usize>().ok()))
}
