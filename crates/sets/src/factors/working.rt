// A column swapped and worked by the columns held.
ghost use Rattle.std.specs.Prelude.{◌≡◌, ℕ, ◌+◌, ◌-◌, ◌/◌, ◌%◌, ◌<◌, ◌≤◌, length, IfSome};
ghost use Rattle.arithmetic.specs.Runs.{row};
ghost use Rattle.columns.specs.Swaps.{joined};
ghost use Rattle.columns.specs.Factors.{permuted, restored, worked, lead};
ghost use Rattle.columns.specs.Panels.{cells};
ghost use Rattle.sets.specs.Lent.{lent};

use super::Factors;
use arithmetic::{Arithmetic, is_zero};
use columns::{solve_panel, subtract_product, swap_panel, unswap_panel};

// Puts zeros into the rows from `from` on.
pub(super) fn clear<T: Arithmetic>(from: usize, run: &mut [T])
    requires { from ≤ length run.old }
    ensures { row T.field.ops T.value run.new ≡ joined from (row T.field.ops T.value run.old) (λ i. T.field.ops.zero) }
{
    for x in &mut run[from..] {
        *x = T::zero();
    }
}

impl<T: Arithmetic> Factors<'_, T> {
    // Swaps a column by the pivots.
    pub(super) fn permute(&self, column: &mut [T])
        requires { length column.old ≡ self.now.height }
        ensures { row T.field.ops T.value column.new ≡ permuted (lent T.field.ops T.value self.now) (row T.field.ops T.value column.old) }
    {
        let _ = swap_panel(column, self.height, &self.pivots[..self.rank]);
    }

    // Undoes those swaps.
    pub(super) fn restore(&self, column: &mut [T])
        requires { length column.old ≡ self.now.height }
        ensures { row T.field.ops T.value column.new ≡ restored (lent T.field.ops T.value self.now) (row T.field.ops T.value column.old) }
    {
        let _ = unswap_panel(column, self.height, &self.pivots[..self.rank]);
    }

    // Swaps a column, solves its first rows by L and reduces the others to the rest.
    pub(crate) fn work(&self, column: &mut [T])
        requires { length column.old ≡ self.now.height }
        ensures { row T.field.ops T.value column.new ≡ worked T.field.ops (lent T.field.ops T.value self.now) (row T.field.ops T.value column.old) }
    {
        self.permute(column);
        let lower = &self.columns[..self.rank * self.height];
        let _ = solve_panel(lower, self.height, self.rank, column);
        let _ = subtract_product(lower, self.height, self.rank, column);
    }

    // Swaps, solves and reduces each column of a panel.
    pub(crate) fn work_panel(&self, panel: &mut [T])
        requires { length panel.old % self.now.height ≡ 0 }
        ensures { (j : ℕ) → j < length panel.old / self.now.height → cells T.field.ops T.value self.now.height panel.new j ≡ worked T.field.ops (lent T.field.ops T.value self.now) (cells T.field.ops T.value self.now.height panel.old j) }
    {
        let _ = swap_panel(panel, self.height, &self.pivots[..self.rank]);
        let lower = &self.columns[..self.rank * self.height];
        let _ = solve_panel(lower, self.height, self.rank, panel);
        let _ = subtract_product(lower, self.height, self.rank, panel);
    }

    // The first place of a worked column's rest that is not zero.
    pub(crate) fn leading(&self, column: &[T]) -> Option<usize>
        requires { length column.now ≡ self.now.height }
        ensures first { result ≡ lead T.field.ops (self.now.height - self.now.rank) (λ i. row T.field.ops T.value column.now (self.now.rank + i)) }
        ensures inside { IfSome result (λ i. self.now.rank + i < self.now.height) }
    {
        for (i, x) in column[self.rank..].iter().enumerate() {
            if !is_zero(*x) {
                return Some(i);
            }
        }
        None
    }
}
