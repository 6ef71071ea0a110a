// What a set is.
ghost use Rattle.std.specs.Prelude.{◌≡◌, ◌+◌, ◌*◌, ◌<◌, ◌≤◌, None, vec_len};
ghost use Rattle.sets.specs.Pivots.{PivotsWithin};

use columns::{MOST, Refusal};

mod asking;
mod batching;
mod choosing;
mod making;
mod offer;
mod reading;
mod sealing;
mod taking;

// Whether columns may still be offered to a set: `Open` or `Sealed`.
pub trait Stage: Copy {}

// Columns may still be offered.
#[derive(Clone, Copy)]
pub struct Open;

// No more columns are offered, and a full set can be solved.
#[derive(Clone, Copy)]
pub struct Sealed;

impl Stage for Open {}

impl Stage for Sealed {}

// The memory has `unknowns + 2` slots of `unknowns` elements: the held columns' factors, the next column, and the targets in the last slot.
#[derive(Drop)]
pub struct Set<T, S: Stage> {
    memory: Vec<T>,
    unknowns: usize,
    held: usize,
    pivots: [usize; MOST],
    refusal: Option<Refusal>,
    stage: S,
    ghost size: { unknowns ≤ 96 },
    ghost some: { refusal ≡ None → 0 < unknowns },
    ghost few: { held ≤ unknowns },
    ghost room: { unknowns * (unknowns + 2) ≤ vec_len memory },
    ghost inside: { PivotsWithin unknowns held pivots },
}

pub type OpenSet<T> = Set<T, Open>;

pub type SealedSet<T> = Set<T, Sealed>;
