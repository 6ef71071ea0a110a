// The parts of a set's memory.
ghost use Rattle.std.specs.Prelude.{◌≡◌, ◌≤◌, length};
ghost use Rattle.arithmetic.specs.Runs.{row};
ghost use Rattle.sets.specs.States.{value_of};
ghost use Rattle.sets.specs.Lent.{lent};
ghost use Rattle.sets.specs.Sets.{state, next_column};

use super::{Set, Stage};
use crate::factors::Factors;
use arithmetic::{Arithmetic, sum_of_products};

impl<T: Arithmetic, S: Stage> Set<T, S> {
    // The packed factors of the columns held.
    pub(super) fn factors(&self) -> Factors<'_, T>
        ensures lent { lent T.field.ops T.value result ≡ (state T.field.ops T.value self.now).factors }
        ensures height { result.height ≡ self.now.unknowns }
        ensures rank { result.rank ≡ self.now.held }
    {
        Factors {
            columns: self.memory.as_slice(),
            height: self.unknowns,
            rank: self.held,
            pivots: &self.pivots,
        }
    }

    // The column after the held ones.
    pub(super) fn next(&self) -> &[T]
        ensures values { row T.field.ops T.value result.now ≡ next_column T.field.ops T.value self.now }
        ensures high { length result.now ≡ self.now.unknowns }
    {
        let start = self.held * self.unknowns;
        &self.memory.as_slice()[start..start + self.unknowns]
    }

    // The targets of the columns held.
    pub(super) fn targets(&self) -> &[T]
        ensures values { row T.field.ops T.value result.now ≡ (state T.field.ops T.value self.now).target }
        ensures counted { length result.now ≡ self.now.held }
    {
        let start = (self.unknowns + 1) * self.unknowns;
        &self.memory.as_slice()[start..start + self.held]
    }

    // The value of a combination.
    pub(super) fn value(&self, combination: &[T]) -> T
        requires { self.now.held ≤ length combination.now }
        ensures { T.value result ≡ value_of T.field.ops (state T.field.ops T.value self.now) (row T.field.ops T.value combination.now) }
    {
        sum_of_products(self.targets(), combination)
    }
}
