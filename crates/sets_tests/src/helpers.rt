// What the tests share.
ghost use Rattle.std.specs.Prelude.{◌≡◌, length};

use arithmetic::Arithmetic;
use columns::{Chooser, Refusal};
use sets::{OpenSet, Reply, Verdict};
use std::alloc::{AllocError, Global};
use std::test::Fail;

// A set of so many unknowns over just enough memory.
pub fn new_set<T: Arithmetic>(heap: Global, unknowns: usize) -> Result<OpenSet<T>, AllocError> {
    let size = unknowns.saturating_mul(unknowns.saturating_add(2));
    Ok(OpenSet::make(unknowns, vec![in heap; T::zero(); size]?))
}

// These numbers, brought in.
fn brought<T: Arithmetic>(heap: Global, numbers: &[i32]) -> Result<Vec<T>, AllocError> {
    numbers.iter().map(|n| T::bring(*n)).collect(heap)
}

// The codes of a run.
pub fn codes<T: Arithmetic, const N: usize>(run: &[T]) -> [u32; N]
    requires { length run.now ≡ N }
{
    let mut codes = [0; N];
    for (code, x) in codes.iter_mut().zip(run) {
        *code = x.code();
    }
    codes
}

// The verdict, with its value's code.
fn verdict_in_code<T: Arithmetic>(verdict: Verdict<T>) -> Verdict<u32> {
    match verdict {
        Verdict::Taken(place) => Verdict::Taken(place),
        Verdict::Redundant => Verdict::Redundant,
        Verdict::Clash(value) => Verdict::Clash(value.code()),
    }
}

// The reply, with its value's code.
fn reply_in_code<T: Arithmetic>(reply: Reply<T>) -> Reply<u32> {
    match reply {
        Reply::Fixed(value) => Reply::Fixed(value.code()),
        Reply::Free => Reply::Free,
    }
}

// A set under a chooser. It is told whole numbers, which are brought in, and answers in codes. Each answer run holds 7s before.
#[derive(Drop)]
pub struct Scheme<T, C> {
    heap: Global,
    pub set: OpenSet<T>,
    chooser: C,
}

impl<T: Arithmetic, C: Chooser + Drop> Scheme<T, C> {
    pub fn new(heap: Global, unknowns: usize, chooser: C) -> Result<Scheme<T, C>, AllocError> {
        let set = new_set(heap, unknowns)?;
        Ok(Scheme { heap, set, chooser })
    }

    // The verdict on a dimension, and the answer run.
    pub fn offer<const N: usize>(
        &mut self,
        column: [i32; N],
        target: i32,
    ) -> Result<(Verdict<u32>, [u32; N]), Fail> {
        let column = brought::<T>(self.heap, &column)?;
        let mut answer = vec![in self.heap; T::bring(7); N]?;
        let verdict = self.set.offer(
            column.as_slice(),
            T::bring(target),
            answer.as_mut_slice(),
            &self.chooser,
        )?;
        Ok((verdict_in_code(verdict), codes(answer.as_slice())))
    }

    // The numbers of the verdicts on dimensions judged by one batch.
    pub fn batch<const K: usize>(
        &mut self,
        columns: &[i32],
        targets: [i32; K],
        width: usize,
    ) -> Result<[u8; K], Fail> {
        let columns = brought::<T>(self.heap, columns)?;
        let targets = brought::<T>(self.heap, &targets)?;
        let mut verdicts = [9; K];
        let room = width.saturating_mul(self.set.unknowns());
        let mut work = vec![in self.heap; T::bring(7); room]?;
        self.set.batch(
            targets.as_slice(),
            columns.as_slice(),
            &mut verdicts,
            width,
            work.as_mut_slice(),
            &self.chooser,
        )?;
        Ok(verdicts)
    }

    // The reply to a query, and the answer run.
    pub fn enquire<const N: usize>(&self, query: [i32; N]) -> Result<(Reply<u32>, [u32; N]), Fail> {
        let query = brought::<T>(self.heap, &query)?;
        let mut answer = vec![in self.heap; T::bring(7); N]?;
        let reply = self.set.enquire(query.as_slice(), answer.as_mut_slice())?;
        Ok((reply_in_code(reply), codes(answer.as_slice())))
    }

    // The column held at a place, and its target.
    pub fn rebuild<const N: usize>(&self, place: usize) -> Result<([u32; N], u32), Fail> {
        let mut column = vec![in self.heap; T::bring(7); N]?;
        let target = self.set.rebuild(place, column.as_mut_slice())?;
        Ok((codes(column.as_slice()), target.code()))
    }
}

// A recurrence modulo 2^31.
#[derive(Drop)]
pub struct Recurrence(pub u32);

impl Recurrence {
    // The upper sixteen bits of its next number.
    fn upper(&mut self) -> i32 {
        let Recurrence(x) = self;
        *x = x.wrapping_mul(1103515245).wrapping_add(12345) % 0x8000_0000;
        (*x / 0x8000 % 0x10000) as i32
    }

    // Those bits, brought in.
    pub fn next<T: Arithmetic>(&mut self) -> T {
        T::bring(self.upper())
    }

    // The lowest of those bits, brought in.
    pub fn bit<T: Arithmetic>(&mut self) -> T {
        T::bring(self.upper() % 2)
    }
}

// The runs of a batch: targets and columns of zeros and ones by a recurrence, and 9s in the verdict list and the work run.
#[derive(Drop)]
pub struct Runs<T> {
    targets: Vec<T>,
    columns: Vec<T>,
    pub verdicts: Vec<u8>,
    work: Vec<T>,
}

impl<T: Arithmetic> Runs<T> {
    // Runs of these lengths, in the same order.
    pub fn new(heap: Global, lengths: [usize; 4]) -> Result<Runs<T>, AllocError> {
        let [targets, columns, verdicts, work] = lengths;
        let (mut of_targets, mut of_columns) = (Recurrence(1), Recurrence(2));
        let mut runs = Runs {
            targets: vec![in heap; T::zero(); targets]?,
            columns: vec![in heap; T::zero(); columns]?,
            verdicts: vec![in heap; 9; verdicts]?,
            work: vec![in heap; T::bring(9); work]?,
        };
        runs.targets.as_mut_slice().fill_with(|| of_targets.bit());
        runs.columns.as_mut_slice().fill_with(|| of_columns.bit());
        Ok(runs)
    }

    pub fn batch<C: Chooser>(
        &mut self,
        set: &mut OpenSet<T>,
        width: usize,
        chooser: &C,
    ) -> Result<(), Refusal> {
        set.batch(
            self.targets.as_slice(),
            self.columns.as_slice(),
            self.verdicts.as_mut_slice(),
            width,
            self.work.as_mut_slice(),
            chooser,
        )
    }

    // Whether 9s still stand in the verdict list and the work run from these places on.
    pub fn untouched_from(&self, verdict: usize, work: usize) -> bool {
        let nine = T::bring(9).code();
        self.verdicts.iter().skip(verdict).all(|x| *x == 9)
            && self.work.iter().skip(work).all(|x| x.code() == nine)
    }
}
