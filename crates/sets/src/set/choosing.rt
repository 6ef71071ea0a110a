// What a chooser is asked about the worked column after the held ones.
ghost use Rattle.std.specs.Prelude.{◌≡◌, ℕ, ◌<◌, ◌≤◌, length, slice_index};
ghost use Rattle.arithmetic.specs.Runs.{row};
ghost use Rattle.columns.specs.Factors.{permuted};
ghost use Rattle.sets.specs.States.{picked};
ghost use Rattle.sets.specs.Sets.{state, next_column};

use super::{Open, Set};
use arithmetic::Arithmetic;
use columns::{Chooser, MOST, swap_panel};

fn codes_of<T: Arithmetic>(rest: &[T]) -> [u32; MOST]
    requires { length rest.now ≤ 96 }
    ensures { (k : ℕ) → k < length rest.now → slice_index result k ≡ T.field.ops.code (row T.field.ops T.value rest.now k) }
{
    let mut codes = [0; MOST];
    for (i, x) in rest.iter().enumerate() {
        codes[i] = x.code();
    }
    codes
}

fn numbers() -> [usize; MOST]
    ensures { (k : ℕ) → k < 96 → slice_index result k ≡ k }
{
    let mut rows = [0; MOST];
    for (i, row) in rows.iter_mut().enumerate() {
        *row = i;
    }
    rows
}

impl<T: Arithmetic> Set<T, Open> {
    // The unknown that stands in each row after the held columns' swaps.
    fn row_unknowns(&self) -> [usize; MOST]
        ensures { (k : ℕ) → k < 96 → slice_index result k ≡ permuted (state T.field.ops T.value self.now).factors (λ i. i) k }
    {
        let mut rows = numbers();
        let _ = swap_panel(&mut rows, MOST, &self.pivots[..self.held]);
        rows
    }

    // The place in its rest that the chooser picks, if any.
    pub(super) fn choose<C: Chooser>(&self, chooser: &C) -> Option<usize>
        ensures { result ≡ picked T.field.ops (C.pick chooser.now) (state T.field.ops T.value self.now) (next_column T.field.ops T.value self.now) }
    {
        let rest = &self.next()[self.held..];
        let codes = codes_of(rest);
        let rows = self.row_unknowns();
        chooser.choose(&codes[..rest.len()], &rows[self.held..self.unknowns])
    }
}
