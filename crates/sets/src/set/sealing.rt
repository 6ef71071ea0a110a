// A sealed set: nothing more is offered to it, and a full one can be solved.
ghost use Rattle.std.specs.Prelude.{◌≡◌, length, IfOk, MatchResult};
ghost use Rattle.std.specs.Result.{result_err};
ghost use Rattle.sets.specs.Histories.{Step};
ghost use Rattle.sets.specs.Histories.Call.{seal};
ghost use Rattle.sets.specs.Refused.{solution_refusal, determinant_refusal};
ghost use Rattle.sets.specs.Sets.{SameSet, state};
ghost use Rattle.sets.specs.Asked.{Solved, Determined};

use super::{Open, Sealed, SealedSet, Set};
use arithmetic::Arithmetic;
use columns::Refusal;

impl<T: Arithmetic> Set<T, Open> {
    // Turns the set into a sealed one; a refused one too, which keeps its refusal.
    pub fn seal(self) -> SealedSet<T>
        ensures same { SameSet self result }
        ensures step { Step T.field.ops (state T.field.ops T.value self) seal (state T.field.ops T.value result) }
    {
        let Set {
            memory,
            unknowns,
            held,
            pivots,
            refusal,
            stage: Open,
        } = self;
        Set {
            memory,
            unknowns,
            held,
            pivots,
            refusal,
            stage: Sealed,
        }
    }
}

impl<T: Arithmetic> Set<T, Sealed> {
    // Refuses while fewer columns are held than there are unknowns.
    fn accept_full(&self) -> Result<(), Refusal>
        ensures { result_err result ≡ determinant_refusal self.now.refusal self.now.unknowns self.now.held }
    {
        self.accept_any()?;
        if self.held < self.unknowns {
            return Err(Refusal::Missing);
        }
        Ok(())
    }

    // Writes the assignment that meets every held column.
    pub fn solution(&self, answer: &mut [T]) -> Result<(), Refusal>
        ensures refused { result_err result ≡ solution_refusal self.now.refusal self.now.unknowns (length answer.old) self.now.held }
        ensures solved { MatchResult result (λ _. Solved T.field.ops T.value (state T.field.ops T.value self.now) answer.new) (λ _. answer.new ≡ answer.old) }
    {
        self.accept(answer.len(), answer.len())?;
        self.accept_full()?;
        self.factors().assign(self.targets(), answer);
        Ok(())
    }

    // The determinant of the held columns.
    pub fn determinant(&self) -> Result<T, Refusal>
        ensures refused { result_err result ≡ determinant_refusal self.now.refusal self.now.unknowns self.now.held }
        ensures determined { IfOk result (Determined T.field.ops T.value (state T.field.ops T.value self.now)) }
    {
        self.accept_full()?;
        Ok(self.factors().determinant())
    }
}
