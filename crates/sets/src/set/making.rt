// The making and the end of a set, and what anyone may read off it.
ghost use Rattle.std.specs.Prelude.{◌≡◌, ◌+◌, ◌*◌, ◌<◌, ◌≤◌, [], None, vec_len, OnOk, MatchOption};
ghost use Rattle.std.specs.Result.{result_err};
ghost use Rattle.sets.specs.States.{made};
ghost use Rattle.sets.specs.Histories.{History};
ghost use Rattle.sets.specs.Refused.{make_refusal, allowed};
ghost use Rattle.sets.specs.Sets.{state};

use super::{Open, OpenSet, Set, Stage};
use arithmetic::Arithmetic;
use columns::{MOST, Refusal};

// Whether a set of so many unknowns can be made over so much memory.
fn check_room(unknowns: usize, size: usize) -> Result<(), Refusal>
    ensures refused { result_err result ≡ make_refusal unknowns size }
    ensures some { OnOk result (0 < unknowns) }
    ensures few { OnOk result (unknowns ≤ 96) }
    ensures room { OnOk result (unknowns * (unknowns + 2) ≤ size) }
{
    if unknowns == 0 || unknowns > MOST {
        return Err(Refusal::Unknowns);
    }
    if size < unknowns * (unknowns + 2) {
        return Err(Refusal::Memory);
    }
    Ok(())
}

impl<T: Arithmetic> Set<T, Open> {
    // A set of so many unknowns that holds nothing.
    fn empty(unknowns: usize, memory: Vec<T>, refusal: Option<Refusal>) -> OpenSet<T>
        requires some { refusal ≡ None → 0 < unknowns }
        requires few { unknowns ≤ 96 }
        requires room { unknowns * (unknowns + 2) ≤ vec_len memory }
        ensures memory { result.memory ≡ memory }
        ensures refusal { result.refusal ≡ refusal }
        ensures unknowns { result.unknowns ≡ unknowns }
        ensures state { state T.field.ops T.value result ≡ made T.field.ops unknowns }
    {
        Set {
            memory,
            unknowns,
            held: 0,
            pivots: [0; MOST],
            refusal,
            stage: Open,
        }
    }

    // A set that holds nothing. A refused one has no unknowns, and answers its refusal to every call that can be refused.
    pub fn make(unknowns: usize, memory: Vec<T>) -> OpenSet<T>
        ensures memory { result.memory ≡ memory }
        ensures refusal { result.refusal ≡ make_refusal unknowns (vec_len memory) }
        ensures state { state T.field.ops T.value result ≡ made T.field.ops (allowed (make_refusal unknowns (vec_len memory)) unknowns) }
        ensures started { History T.field.ops result.unknowns [] (state T.field.ops T.value result) }
    {
        match check_room(unknowns, memory.len()) {
            Ok(()) => Set::empty(unknowns, memory, None),
            Err(refusal) => Set::empty(0, memory, Some(refusal)),
        }
    }
}

impl<T: Arithmetic, S: Stage> Set<T, S> {
    // Gives the memory back.
    pub fn end(self) -> Vec<T>
        ensures { result ≡ self.memory }
    {
        let Set {
            memory,
            unknowns: _,
            held: _,
            pivots: _,
            refusal: _,
            stage: _,
        } = self;
        memory
    }

    pub fn unknowns(&self) -> usize
        ensures { result ≡ self.now.unknowns }
    {
        self.unknowns
    }

    pub fn held(&self) -> usize
        ensures { result ≡ self.now.held }
    {
        self.held
    }

    pub fn refusal(&self) -> Option<Refusal>
        ensures { result ≡ self.now.refusal }
    {
        self.refusal
    }

    // The pivot of the column held at place k.
    pub fn pivot(&self, k: usize) -> Option<usize>
        ensures { MatchOption result (self.now.held ≤ k) (λ p. (k < self.now.held) × (p ≡ (state T.field.ops T.value self.now).factors.offset k)) }
    {
        self.pivots[..self.held].get(k).copied()
    }

    // The target of the column held at place k.
    pub fn target(&self, k: usize) -> Option<T>
        ensures { MatchOption result (self.now.held ≤ k) (λ t. (k < self.now.held) × (T.value t ≡ (state T.field.ops T.value self.now).target k)) }
    {
        self.targets().get(k).copied()
    }
}
