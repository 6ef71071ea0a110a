// Columns judged by panels.
ghost use Rattle.std.specs.Prelude.{◌≡◌, ℕ, ◌*◌, ◌/◌, ◌<◌, ◌≤◌, length, map, drop, MatchResult, OnOk};
ghost use Rattle.std.specs.Result.{result_err};
ghost use Rattle.arithmetic.specs.Runs.{row};
ghost use Rattle.columns.specs.Panels.{cells};
ghost use Rattle.sets.specs.Refused.{batch_refusal};
ghost use Rattle.sets.specs.Sets.{PlaceOfLast, caught_up, state, surplus};
ghost use Rattle.sets.specs.States.{verdict_number, picked, decided, going_on, panelled, in_turn};
ghost use Rattle.sets.specs.Batches.{offers_in, Batched};

use super::{Open, Set};
use crate::verdict::Verdict;
use arithmetic::Arithmetic;
use columns::{Chooser, Refusal};

impl<T: Arithmetic> Set<T, Open> {
    // Refuses columns or a verdict list of the wrong length, then a wrong width or a short work run.
    fn accept_batch(
        &self,
        targets: usize,
        columns: usize,
        verdicts: usize,
        width: usize,
        work: usize,
    ) -> Result<(), Refusal>
        ensures refused { result_err result ≡ batch_refusal self.now.refusal self.now.unknowns targets columns verdicts width work }
        ensures some { OnOk result (0 < self.now.unknowns) }
        ensures counted { OnOk result (columns ≡ targets * self.now.unknowns) }
        ensures listed { OnOk result (targets ≤ verdicts) }
        ensures wide { OnOk result (0 < width) }
        ensures room { OnOk result (width * self.now.unknowns ≤ work) }
    {
        self.accept_any()?;
        if targets.checked_mul(self.unknowns) != Some(columns) || verdicts < targets {
            return Err(Refusal::List);
        }
        if width == 0 || width > 32 || work < width * self.unknowns {
            return Err(Refusal::Work);
        }
        Ok(())
    }

    // Brings the columns of a panel, which were worked before a verdict, up to date with it.
    fn catch_up(&self, verdict: &Verdict<T>, panel: &mut [T])
        requires { PlaceOfLast self.now.held verdict.now }
        ensures { (j : ℕ) → j < length panel.old / self.now.unknowns → cells T.field.ops T.value self.now.unknowns panel.new j ≡ caught_up T.field.ops (state T.field.ops T.value self.now).factors verdict.now (cells T.field.ops T.value self.now.unknowns panel.old j) }
    {
        if let Verdict::Taken(place) = verdict {
            self.factors().advance_panel(*place, panel);
        }
    }

    // Judges column j of a worked panel, and brings the later ones up to date with it.
    fn judge_next<C: Chooser>(&mut self, j: usize, target: T, panel: &mut [T], chooser: &C) -> u8
        requires { j < length panel.old / self.old.unknowns }
        ensures number { let s = state T.field.ops T.value self.old in let w = cells T.field.ops T.value self.old.unknowns panel.old j in result ≡ verdict_number (decided T.field.ops s w (T.value target) (picked T.field.ops (C.pick chooser.now) s w)).0 }
        ensures state { let s = state T.field.ops T.value self.old in let w = cells T.field.ops T.value self.old.unknowns panel.old j in state T.field.ops T.value self.new ≡ (decided T.field.ops s w (T.value target) (picked T.field.ops (C.pick chooser.now) s w)).1 }
        ensures later { let s = state T.field.ops T.value self.old in let x = cells T.field.ops T.value self.old.unknowns panel.old in (i : ℕ) → j < i → i < length panel.old / self.old.unknowns → cells T.field.ops T.value self.old.unknowns panel.new i ≡ going_on T.field.ops s (x j) (picked T.field.ops (C.pick chooser.now) s (x j)) (x i) }
        ensures unknowns { self.new.unknowns ≡ self.old.unknowns }
        ensures surplus { surplus self.new ≡ surplus self.old }
        ensures refusal { self.new.refusal ≡ self.old.refusal }
    {
        let height = self.unknowns;
        let start = j * height;
        let (judged, later) = panel.split_at_mut(start + height);
        let column = &mut judged[start..];
        self.put(column);
        let verdict = self.decide(target, column, chooser);
        self.catch_up(&verdict, later);
        verdict.number()
    }

    // Judges the columns of a worked panel one after another.
    fn judge_panel<C: Chooser>(
        &mut self,
        targets: &[T],
        verdicts: &mut [u8],
        panel: &mut [T],
        chooser: &C,
    )
        requires some { 0 < self.old.unknowns }
        requires counted { length panel.old ≡ length targets.now * self.old.unknowns }
        requires listed { length verdicts.old ≡ length targets.now }
        ensures verdicts { verdicts.new ≡ map verdict_number (panelled T.field.ops (C.pick chooser.now) (length targets.now) (state T.field.ops T.value self.old) (cells T.field.ops T.value self.old.unknowns panel.old) (row T.field.ops T.value targets.now)).0 }
        ensures state { state T.field.ops T.value self.new ≡ (panelled T.field.ops (C.pick chooser.now) (length targets.now) (state T.field.ops T.value self.old) (cells T.field.ops T.value self.old.unknowns panel.old) (row T.field.ops T.value targets.now)).1 }
        ensures unknowns { self.new.unknowns ≡ self.old.unknowns }
        ensures surplus { surplus self.new ≡ surplus self.old }
        ensures refusal { self.new.refusal ≡ self.old.refusal }
    {
        for (j, target) in targets.iter().enumerate() {
            verdicts[j] = self.judge_next(j, *target, panel, chooser);
        }
    }

    // Works columns as one panel, then judges them.
    fn batch_panel<C: Chooser>(
        &mut self,
        targets: &[T],
        columns: &[T],
        verdicts: &mut [u8],
        panel: &mut [T],
        chooser: &C,
    )
        requires some { 0 < self.old.unknowns }
        requires counted { length columns.now ≡ length targets.now * self.old.unknowns }
        requires listed { length verdicts.old ≡ length targets.now }
        requires room { length panel.old ≡ length columns.now }
        ensures verdicts { verdicts.new ≡ map verdict_number (in_turn T.field.ops (C.pick chooser.now) (state T.field.ops T.value self.old) (offers_in T.field.ops T.value self.old.unknowns columns.now targets.now)).0 }
        ensures state { state T.field.ops T.value self.new ≡ (in_turn T.field.ops (C.pick chooser.now) (state T.field.ops T.value self.old) (offers_in T.field.ops T.value self.old.unknowns columns.now targets.now)).1 }
        ensures unknowns { self.new.unknowns ≡ self.old.unknowns }
        ensures surplus { surplus self.new ≡ surplus self.old }
        ensures refusal { self.new.refusal ≡ self.old.refusal }
    {
        panel.copy_from_slice(columns);
        self.factors().work_panel(panel);
        self.judge_panel(targets, verdicts, panel, chooser);
    }

    // Judges columns, one after another in one run, as so many offers would, by panels of `width` columns.
    pub fn batch<C: Chooser>(
        &mut self,
        targets: &[T],
        columns: &[T],
        verdicts: &mut [u8],
        width: usize,
        work: &mut [T],
        chooser: &C,
    ) -> Result<(), Refusal>
        ensures refused { result_err result ≡ batch_refusal self.old.refusal self.old.unknowns (length targets.now) (length columns.now) (length verdicts.old) width (length work.old) }
        ensures judged { MatchResult result (λ _. Batched T.field.ops T.value (C.pick chooser.now) self.old targets.now columns.now width verdicts.old self.new verdicts.new) (λ _. (self.new ≡ self.old) × (verdicts.new ≡ verdicts.old) × (work.new ≡ work.old)) }
        ensures beyond { drop (width * self.old.unknowns) work.new ≡ drop (width * self.old.unknowns) work.old }
    {
        self.accept_batch(
            targets.len(),
            columns.len(),
            verdicts.len(),
            width,
            work.len(),
        )?;
        let height = self.unknowns;
        let mut start = 0;
        while start < targets.len() {
            let end = targets.len().min(start + width);
            self.batch_panel(
                &targets[start..end],
                &columns[start * height..end * height],
                &mut verdicts[start..end],
                &mut work[..(end - start) * height],
                chooser,
            );
            start = end;
        }
        Ok(())
    }
}
