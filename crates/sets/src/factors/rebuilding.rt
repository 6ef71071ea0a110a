// A held column, rebuilt from the factors.
ghost use Rattle.std.specs.Prelude.{◌≡◌, ◌<◌, ◌≤◌, length};
ghost use Rattle.arithmetic.specs.Runs.{row};
ghost use Rattle.columns.specs.Linear.{multiply};
ghost use Rattle.columns.specs.Factors.{lower, upper, rebuilt};
ghost use Rattle.sets.specs.Lent.{lent};

use super::Factors;
use arithmetic::Arithmetic;

impl<T: Arithmetic> Factors<'_, T> {
    // Row i of column k of L, on or below the diagonal.
    fn lower_entry(&self, k: usize, i: usize) -> T
        requires column { k < self.now.rank }
        requires below { k ≤ i }
        requires row { i < self.now.height }
        ensures { T.value result ≡ lower T.field.ops (lent T.field.ops T.value self.now) k i }
    {
        if k < i { self.entry(k, i) } else { T::one() }
    }

    // Row i of column j of L U.
    fn product_entry(&self, j: usize, i: usize) -> T
        requires column { j < self.now.rank }
        requires row { i < self.now.height }
        ensures { T.value result ≡ multiply T.field.ops self.now.rank (lower T.field.ops (lent T.field.ops T.value self.now)) (upper T.field.ops (lent T.field.ops T.value self.now)) j i }
    {
        let mut sum = T::zero();
        for (k, factor) in self.column(j)[..i.min(j) + 1].iter().enumerate() {
            sum = sum.sum(self.lower_entry(k, i).product(*factor));
        }
        sum
    }

    // The run becomes column j as it was taken.
    pub(crate) fn rebuild(&self, j: usize, run: &mut [T])
        requires column { j < self.now.rank }
        requires high { length run.old ≡ self.now.height }
        ensures { row T.field.ops T.value run.new ≡ rebuilt T.field.ops (lent T.field.ops T.value self.now) j }
    {
        for (i, x) in run.iter_mut().enumerate() {
            *x = self.product_entry(j, i);
        }
        self.restore(run);
    }
}
