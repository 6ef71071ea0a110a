// Back substitution: the combination of the columns held that gives a worked column.
ghost use Rattle.std.specs.Prelude.{◌≡◌, ◌<◌, length};
ghost use Rattle.arithmetic.specs.Runs.{row};
ghost use Rattle.columns.specs.Factors.{combination};
ghost use Rattle.columns.specs.Panels.{cells};
ghost use Rattle.sets.specs.Lent.{lent};
ghost use Rattle.sets.specs.Workings.{back_step};

use super::Factors;
use super::working::clear;
use arithmetic::{Arithmetic, difference};

impl<T: Arithmetic> Factors<'_, T> {
    // Row n divided by U's diagonal, and the rows before it less their share.
    fn back_row(&self, n: usize, run: &mut [T])
        requires column { n < self.now.rank }
        requires high { length run.old ≡ self.now.height }
        ensures { row T.field.ops T.value run.new ≡ back_step T.field.ops (cells T.field.ops T.value self.now.height self.now.columns.now) n (row T.field.ops T.value run.old) }
    {
        let x = self.entry(n, n).inverse().product(run[n]);
        for (i, factor) in self.column(n)[..n].iter().enumerate() {
            run[i] = difference(run[i], factor.product(x));
        }
        run[n] = x;
    }

    // The worked column in the run becomes the combination that gives it, then zeros.
    pub(crate) fn combine(&self, run: &mut [T])
        requires { length run.old ≡ self.now.height }
        ensures { row T.field.ops T.value run.new ≡ combination T.field.ops (lent T.field.ops T.value self.now) (row T.field.ops T.value run.old) }
    {
        clear(self.rank, run);
        for n in (0..self.rank).rev() {
            self.back_row(n, run);
        }
    }
}
