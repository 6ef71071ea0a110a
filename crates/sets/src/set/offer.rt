// A column offered to a set: taken, redundant or a clash.
ghost use Rattle.std.specs.Prelude.{◌≡◌, ◌+◌, ◌<◌, length, MatchResult};
ghost use Rattle.std.specs.Result.{result_err};
ghost use Rattle.arithmetic.specs.Runs.{row};
ghost use Rattle.columns.specs.Factors.{combination};
ghost use Rattle.sets.specs.States.{picked, repeated, taken_at, decided};
ghost use Rattle.sets.specs.Refused.{offer_refusal};
ghost use Rattle.sets.specs.Sets.{Kept, Offered, Untouched, state, next_column, worked_column, surplus, seen};

use super::taking::{put_column, take_column, work_column};
use super::{Open, Set};
use crate::verdict::Verdict;
use arithmetic::{Arithmetic, same};
use columns::{Chooser, Refusal};

impl<T: Arithmetic> Set<T, Open> {
    // Puts a column into the slot after the held ones.
    pub(super) fn put(&mut self, column: &[T])
        requires { length column.now ≡ self.old.unknowns }
        ensures kept { Kept self.old self.new }
        ensures state { state T.field.ops T.value self.new ≡ state T.field.ops T.value self.old }
        ensures next { next_column T.field.ops T.value self.new ≡ row T.field.ops T.value column.now }
    {
        let height = self.unknowns;
        let all = self.memory.as_mut_slice();
        let slots = &mut all[0..height * (height + 2)];
        put_column(slots, height, self.held, column);
    }

    // Works a column in the slot after the held ones.
    fn work(&mut self, column: &[T])
        requires { length column.now ≡ self.old.unknowns }
        ensures kept { Kept self.old self.new }
        ensures state { state T.field.ops T.value self.new ≡ state T.field.ops T.value self.old }
        ensures worked { next_column T.field.ops T.value self.new ≡ worked_column T.field.ops T.value self.old column.now }
    {
        let height = self.unknowns;
        let all = self.memory.as_mut_slice();
        let slots = &mut all[0..height * (height + 2)];
        work_column(slots, height, self.held, &self.pivots, column);
    }

    // Takes the worked column after the held ones, at pick q.
    fn take(&mut self, q: usize, target: T) -> usize
        requires { self.old.held + q < self.old.unknowns }
        ensures place { result ≡ self.old.held }
        ensures state { state T.field.ops T.value self.new ≡ taken_at T.field.ops (state T.field.ops T.value self.old) (next_column T.field.ops T.value self.old) (T.value target) q }
        ensures unknowns { self.new.unknowns ≡ self.old.unknowns }
        ensures surplus { surplus self.new ≡ surplus self.old }
        ensures refusal { self.new.refusal ≡ self.old.refusal }
    {
        let height = self.unknowns;
        let rank = self.held;
        let all = self.memory.as_mut_slice();
        let slots = &mut all[0..height * (height + 2)];
        take_column(slots, height, rank, q, target);
        self.pivots[rank] = q;
        self.held = rank + 1;
        rank
    }

    // Writes the combination that gives the worked column after the held ones, and compares its value with the target.
    fn account(&self, target: T, answer: &mut [T]) -> Verdict<T>
        requires { length answer.old ≡ self.now.unknowns }
        ensures { seen T.field.ops T.value result answer.new ≡ repeated T.field.ops (state T.field.ops T.value self.now) (combination T.field.ops (state T.field.ops T.value self.now).factors (next_column T.field.ops T.value self.now)) (T.value target) }
    {
        answer.copy_from_slice(self.next());
        self.factors().combine(answer);
        let value = self.value(answer);
        if same(value, target) {
            Verdict::Redundant
        } else {
            Verdict::Clash(value)
        }
    }

    // The verdict on the worked column after the held ones, which is held from now on if the chooser picks from its rest.
    pub(super) fn decide<C: Chooser>(
        &mut self,
        target: T,
        answer: &mut [T],
        chooser: &C,
    ) -> Verdict<T>
        requires { length answer.old ≡ self.old.unknowns }
        ensures formula { decided T.field.ops (state T.field.ops T.value self.old) (next_column T.field.ops T.value self.old) (T.value target) (picked T.field.ops (C.pick chooser.now) (state T.field.ops T.value self.old) (next_column T.field.ops T.value self.old)) ≡ (seen T.field.ops T.value result answer.new, state T.field.ops T.value self.new) }
        ensures untouched { Untouched result answer.old answer.new }
        ensures unknowns { self.new.unknowns ≡ self.old.unknowns }
        ensures surplus { surplus self.new ≡ surplus self.old }
        ensures refusal { self.new.refusal ≡ self.old.refusal }
    {
        match self.choose(chooser) {
            Some(q) => Verdict::Taken(self.take(q, target)),
            None => self.account(target, answer),
        }
    }

    // A column that is a combination of the held ones gets that combination in the answer run, then zeros. Any other is held from now on.
    pub fn offer<C: Chooser>(
        &mut self,
        column: &[T],
        target: T,
        answer: &mut [T],
        chooser: &C,
    ) -> Result<Verdict<T>, Refusal>
        ensures refused { result_err result ≡ offer_refusal self.old.refusal self.old.unknowns (length column.now) (length answer.old) }
        ensures judged { MatchResult result (Offered T.field.ops T.value (C.pick chooser.now) self.old column.now target answer.old self.new answer.new) (λ _. (self.new ≡ self.old) × (answer.new ≡ answer.old)) }
    {
        self.accept(column.len(), answer.len())?;
        self.work(column);
        Ok(self.decide(target, answer, chooser))
    }
}
