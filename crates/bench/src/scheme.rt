// The scheme that is judged: dense pseudo-random columns. `bench/plain` draws the same.
use arithmetic::Residue;
use std::alloc::{AllocError, Global};

pub const UNKNOWNS: usize = 96;

const COLUMNS: usize = 192;

// The last so many columns repeat the first ones, so that they are redundant.
const REPEATED: usize = 32;

// A linear congruential generator.
#[derive(Drop)]
struct Numbers {
    state: u32,
}

impl Numbers {
    fn next(&mut self) -> Residue {
        self.state = self.state.wrapping_mul(1664525).wrapping_add(1013904223);
        Residue(((self.state >> 16) % 65479) as u16)
    }
}

// The columns, one after another, and their targets.
#[derive(Drop)]
pub struct Scheme {
    pub columns: Vec<Residue>,
    pub targets: Vec<Residue>,
}

impl Scheme {
    pub fn new(heap: Global) -> Result<Scheme, AllocError> {
        let columns = drawn(heap, 1, UNKNOWNS)?;
        let targets = drawn(heap, 2, 1)?;
        Ok(Scheme { columns, targets })
    }
}

// A run of so many numbers for each column, drawn from a seed.
fn drawn(heap: Global, seed: u32, each: usize) -> Result<Vec<Residue>, AllocError> {
    let mut run = Vec::new(heap);
    for columns in [COLUMNS - REPEATED, REPEATED] {
        let mut numbers = Numbers { state: seed };
        for _ in 0..columns {
            for _ in 0..each {
                run.push(numbers.next())?;
            }
        }
    }
    Ok(run)
}
