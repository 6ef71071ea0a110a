// The scheme judged, by offers or by batches.
use crate::scheme::{Scheme, UNKNOWNS};
use arithmetic::Residue;
use columns::{Greatest, Refusal};
use sets::OpenSet;
use std::alloc::{AllocError, Global};
use std::fmt;

#[derive(Clone, Copy)]
pub enum Way {
    Offers,
    // By panels of so many columns.
    Batch(usize),
}

impl fmt::Display for Way {
    fn fmt<W: fmt::Write>(&self, f: &mut fmt::Formatter<W>) -> fmt::Result {
        match self {
            Way::Offers => write!(f, "offers"),
            Way::Batch(width) => write!(f, "batch of width {width}"),
        }
    }
}

// How many columns are what, with the folded pivots; or a refusal.
#[derive(Clone, Copy, PartialEq, Eq)]
pub struct Outcome {
    taken: usize,
    redundant: usize,
    clashes: usize,
    pivots: usize,
    refusal: Option<Refusal>,
}

impl fmt::Display for Outcome {
    fn fmt<W: fmt::Write>(&self, f: &mut fmt::Formatter<W>) -> fmt::Result {
        if let Some(refusal) = self.refusal {
            return write!(f, "refused, {}", refusal.number());
        }
        write!(
            f,
            "{} taken, {} redundant, {} clashes, pivots {}",
            self.taken, self.redundant, self.clashes, self.pivots
        )
    }
}

// Judges the scheme by a fresh set.
pub fn judge(heap: Global, scheme: &Scheme, way: Way) -> Result<Outcome, AllocError> {
    let memory = vec![in heap; Residue(0); UNKNOWNS * (UNKNOWNS + 2)]?;
    let mut set = OpenSet::make(UNKNOWNS, memory);
    let mut verdicts = vec![in heap; 3u8; scheme.targets.len()]?;
    let answered = match way {
        Way::Offers => offer_all(&mut set, scheme, verdicts.as_mut_slice()),
        Way::Batch(width) => batch_all(&mut set, scheme, verdicts.as_mut_slice(), width),
    };
    let verdicts = verdicts.as_slice();
    Ok(Outcome {
        taken: count(verdicts, 0),
        redundant: count(verdicts, 1),
        clashes: count(verdicts, 2),
        pivots: folded_pivots(&set),
        refusal: answered.err(),
    })
}

fn offer_all(
    set: &mut OpenSet<Residue>,
    scheme: &Scheme,
    verdicts: &mut [u8],
) -> Result<(), Refusal> {
    let mut answer = [Residue(0); UNKNOWNS];
    let columns = scheme.columns.as_slice().chunks(UNKNOWNS);
    let targets = scheme.targets.as_slice();
    for ((column, target), verdict) in columns.zip(targets).zip(verdicts) {
        *verdict = set.offer(column, *target, &mut answer, &Greatest)?.number();
    }
    Ok(())
}

fn batch_all(
    set: &mut OpenSet<Residue>,
    scheme: &Scheme,
    verdicts: &mut [u8],
    width: usize,
) -> Result<(), Refusal> {
    let mut work = [Residue(0); 32 * UNKNOWNS];
    let targets = scheme.targets.as_slice();
    let columns = scheme.columns.as_slice();
    set.batch(targets, columns, verdicts, width, &mut work, &Greatest)
}

fn count(verdicts: &[u8], number: u8) -> usize {
    verdicts.iter().filter(|v| **v == number).count()
}

fn folded_pivots(set: &OpenSet<Residue>) -> usize {
    let mut sum: usize = 0;
    for k in 0..set.held() {
        let pivot = set.pivot(k).unwrap_or(0);
        sum = sum.wrapping_mul(97).wrapping_add(pivot);
    }
    sum
}
