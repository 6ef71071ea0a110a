// By the transposed factors: the motion that a worked column shows, and the assignment of targets.
ghost use Rattle.std.specs.Prelude.{◌≡◌, ◌+◌, ◌<◌, ◌≤◌, length};
ghost use Rattle.arithmetic.specs.Runs.{row, dot};
ghost use Rattle.columns.specs.Swaps.{joined};
ghost use Rattle.columns.specs.Factors.{lower, upper, settled, front, motion, assignment};
ghost use Rattle.columns.specs.Panels.{cells};
ghost use Rattle.sets.specs.Lent.{lent};
ghost use Rattle.sets.specs.Workings.{front_entry};

use super::Factors;
use super::working::clear;
use arithmetic::{Arithmetic, difference, sum_of_products};

impl<T: Arithmetic> Factors<'_, T> {
    // The rows after row k, times column k.
    fn share_below(&self, k: usize, run: &[T]) -> T
        requires column { k < self.now.rank }
        requires high { length run.now ≡ self.now.height }
        ensures { T.value result ≡ dot T.field.ops self.now.height (joined (k + 1) (λ i. T.field.ops.zero) (row T.field.ops T.value run.now)) (cells T.field.ops T.value self.now.height self.now.columns.now k) }
    {
        sum_of_products(&run[k + 1..], &self.column(k)[k + 1..])
    }

    // Sets the rows before the rank in turn, the last first, so that the run times each column of L is what its row held.
    fn settle(&self, run: &mut [T])
        requires { length run.old ≡ self.now.height }
        ensures { row T.field.ops T.value run.new ≡ settled T.field.ops (lower T.field.ops (lent T.field.ops T.value self.now)) self.now.height (row T.field.ops T.value run.old) self.now.rank (joined self.now.rank (λ i. T.field.ops.zero) (row T.field.ops T.value run.old)) }
    {
        for k in (0..self.rank).rev() {
            run[k] = difference(run[k], self.share_below(k, run));
        }
    }

    // The worked column in the run becomes the motion that it shows at place q of its rest.
    pub(crate) fn show_motion(&self, q: usize, run: &mut [T])
        requires place { self.now.rank + q < self.now.height }
        requires high { length run.old ≡ self.now.height }
        ensures { row T.field.ops T.value run.new ≡ motion T.field.ops (lent T.field.ops T.value self.now) (row T.field.ops T.value run.old) q }
    {
        let inverse = run[self.rank + q].inverse();
        clear(0, run);
        run[self.rank + q] = inverse;
        self.settle(run);
        self.restore(run);
    }

    // Row n of the front substitution, from the rows before it.
    fn front_row(&self, n: usize, targets: &[T], run: &[T]) -> T
        requires column { n < self.now.rank }
        requires counted { length targets.now ≡ self.now.rank }
        requires high { length run.now ≡ self.now.height }
        ensures { T.value result ≡ front_entry T.field.ops (cells T.field.ops T.value self.now.height self.now.columns.now) (row T.field.ops T.value targets.now) n (row T.field.ops T.value run.now) }
    {
        let factors = self.column(n);
        let share = sum_of_products(run, &factors[..n]);
        difference(targets[n], share).product(factors[n].inverse())
    }

    // Front substitution: the run times each column of U becomes the column's target.
    fn substitute(&self, targets: &[T], run: &mut [T])
        requires counted { length targets.now ≡ self.now.rank }
        requires high { length run.old ≡ self.now.height }
        ensures { row T.field.ops T.value run.new ≡ front T.field.ops (upper T.field.ops (lent T.field.ops T.value self.now)) (row T.field.ops T.value targets.now) self.now.rank }
    {
        clear(0, run);
        for n in 0..self.rank {
            run[n] = self.front_row(n, targets, run);
        }
    }

    // The positions become the assignment that gives each column its target.
    pub(crate) fn assign(&self, targets: &[T], positions: &mut [T])
        requires counted { length targets.now ≡ self.now.rank }
        requires high { length positions.old ≡ self.now.height }
        ensures { row T.field.ops T.value positions.new ≡ assignment T.field.ops (lent T.field.ops T.value self.now) (row T.field.ops T.value targets.now) }
    {
        self.substitute(targets, positions);
        self.settle(positions);
        self.restore(positions);
    }
}
