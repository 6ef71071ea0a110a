// What a set is asked: enquiries, and held columns again.
ghost use Rattle.std.specs.Prelude.{◌≡◌, length, MatchResult};
ghost use Rattle.std.specs.Result.{result_err};
ghost use Rattle.sets.specs.Refused.{offer_refusal, rebuild_refusal};
ghost use Rattle.sets.specs.Sets.{state};
ghost use Rattle.sets.specs.Asked.{Enquired, Rebuilt};

use super::{Set, Stage};
use crate::reply::Reply;
use arithmetic::Arithmetic;
use columns::Refusal;

impl<T: Arithmetic, S: Stage> Set<T, S> {
    // Refuses all where the set itself was refused.
    pub(super) fn accept_any(&self) -> Result<(), Refusal>
        ensures { result_err result ≡ self.now.refusal }
    {
        match self.refusal {
            Some(refusal) => Err(refusal),
            None => Ok(()),
        }
    }

    // Refuses runs that are not as long as there are unknowns.
    pub(super) fn accept(&self, first: usize, second: usize) -> Result<(), Refusal>
        ensures { result_err result ≡ offer_refusal self.now.refusal self.now.unknowns first second }
    {
        self.accept_any()?;
        if first != self.unknowns || second != self.unknowns {
            return Err(Refusal::Length);
        }
        Ok(())
    }

    // Whether the query is a combination of the held columns. Fixed: the combination, then zeros, in the answer run. Free: a motion.
    pub fn enquire(&self, query: &[T], answer: &mut [T]) -> Result<Reply<T>, Refusal>
        ensures refused { result_err result ≡ offer_refusal self.now.refusal self.now.unknowns (length query.now) (length answer.old) }
        ensures replied { MatchResult result (Enquired T.field.ops T.value (state T.field.ops T.value self.now) query.now answer.new) (λ _. answer.new ≡ answer.old) }
    {
        self.accept(query.len(), answer.len())?;
        answer.copy_from_slice(query);
        let factors = self.factors();
        factors.work(answer);
        match factors.leading(answer) {
            None => {
                factors.combine(answer);
                Ok(Reply::Fixed(self.value(answer)))
            }
            Some(place) => {
                factors.show_motion(place, answer);
                Ok(Reply::Free)
            }
        }
    }

    // Writes the column held at a place, and returns its target.
    pub fn rebuild(&self, place: usize, answer: &mut [T]) -> Result<T, Refusal>
        ensures refused { result_err result ≡ rebuild_refusal self.now.refusal self.now.unknowns (length answer.old) place self.now.held }
        ensures rebuilt { MatchResult result (Rebuilt T.field.ops T.value (state T.field.ops T.value self.now) place answer.new) (λ _. answer.new ≡ answer.old) }
    {
        self.accept(answer.len(), answer.len())?;
        if place >= self.held {
            return Err(Refusal::Place);
        }
        self.factors().rebuild(place, answer);
        Ok(self.targets()[place])
    }
}
