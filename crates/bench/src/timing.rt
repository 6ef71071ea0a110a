// How long judging takes.
use crate::judging::{Way, judge};
use crate::scheme::Scheme;
use std::io;
use std::time::{Duration, Instant};

// For each way the best and the median time of so many repetitions, in microseconds, and the best one's ratio to that of the first way.
pub fn show_times(rt: &HostRuntime, scheme: &Scheme, ways: &[Way], times: usize) -> io::Result<()> {
    let mut first = None;
    for way in ways {
        let sorted = sorted_times(rt, scheme, *way, times)?;
        let (Some(best), Some(median)) = (sorted.first(), sorted.get(times / 2)) else {
            return Ok(());
        };
        let ratio = best.div_duration_f64(*first.get_or_insert(*best));
        let (best, median) = (best.as_micros(), median.as_micros());
        println!(rt; "{way}: best {best}, median {median}, ratio {ratio:.2}")?;
    }
    Ok(())
}

// Each repetition makes a fresh set.
fn sorted_times(
    rt: &HostRuntime,
    scheme: &Scheme,
    way: Way,
    times: usize,
) -> io::Result<Vec<Duration>> {
    let mut sorted = Vec::new(rt.alloc());
    for _ in 0..times {
        let start = Instant::now(rt)?;
        judge(rt.alloc(), scheme, way)?;
        sorted.push(start.elapsed(rt)?)?;
    }
    sorted.sort_unstable();
    Ok(sorted)
}
