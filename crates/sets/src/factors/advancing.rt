// Columns worked before another was taken, brought up to date.
ghost use Rattle.std.specs.Prelude.{◌≡◌, ℕ, ◌+◌, ◌/◌, ◌<◌, length};
ghost use Rattle.arithmetic.specs.Runs.{row};
ghost use Rattle.columns.specs.Panels.{cells};
ghost use Rattle.sets.specs.Lent.{lent};
ghost use Rattle.sets.specs.Workings.{stepped};

use super::Factors;
use arithmetic::{Arithmetic, difference};

impl<T: Arithmetic> Factors<'_, T> {
    // A column worked by the columns before column r, the last, is worked by column r too.
    fn advance(&self, r: usize, column: &mut [T])
        requires last { r + 1 ≡ self.now.rank }
        requires high { length column.old ≡ self.now.height }
        ensures { row T.field.ops T.value column.new ≡ stepped T.field.ops (lent T.field.ops T.value self.now) r (row T.field.ops T.value column.old) }
    {
        column.swap(r, r + self.pivots[r]);
        let x = column[r];
        for i in r + 1..column.len() {
            column[i] = difference(column[i], self.entry(r, i).product(x));
        }
    }

    // So is each column of a panel.
    pub(crate) fn advance_panel(&self, r: usize, panel: &mut [T])
        requires { r + 1 ≡ self.now.rank }
        ensures { (j : ℕ) → j < length panel.old / self.now.height → cells T.field.ops T.value self.now.height panel.new j ≡ stepped T.field.ops (lent T.field.ops T.value self.now) r (cells T.field.ops T.value self.now.height panel.old j) }
    {
        for j in 0..panel.len() / self.height {
            let start = j * self.height;
            self.advance(r, &mut panel[start..start + self.height]);
        }
    }
}
