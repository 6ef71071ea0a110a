// Sealed sets: determinants, solutions, and what is refused.
use crate::helpers::{Recurrence, Scheme, codes, new_set};
use arithmetic::{Arithmetic, Parity, Residue};
use columns::{Chooser, Greatest, Refusal, Topmost};
use sets::OpenSet;
use sets::Verdict::Taken;
use std::process::Abort;
use std::test::Fail;

// The determinant and the solution of as many dimensions as there are unknowns, each of which is taken.
fn solved<T: Arithmetic, C: Chooser + Drop, const N: usize>(
    rt: &(impl Abort + AllocGlobal),
    chooser: C,
    dimensions: [([i32; N], i32); N],
) -> Result<(u32, [u32; N]), Fail> {
    let mut scheme = Scheme::<T, _>::new(rt.alloc(), N, chooser)?;
    for (column, target) in dimensions {
        assert!(rt; matches!(scheme.offer(column, target)?, (Taken(_), _)));
    }
    let sealed = scheme.set.seal();
    assert_eq!(rt; sealed.held(), sealed.unknowns());
    let mut solution = vec![in rt.alloc(); T::bring(7); N]?;
    sealed.solution(solution.as_mut_slice())?;
    Ok((sealed.determinant()?.code(), codes(solution.as_slice())))
}

fn solved_in_residues<C: Chooser + Copy>(
    rt: &(impl Abort + AllocGlobal),
    chooser: C,
) -> Result<(), Fail> {
    let one = solved::<Residue, _, _>(rt, chooser, [([5], 3)])?;
    assert_eq!(rt; one, (5, [39288]));
    let two = solved::<Residue, _, _>(rt, chooser, [([0, 2], 5), ([3, 1], -4)])?;
    assert_eq!(rt; two, (65473, [10911, 32742]));
    let dimensions = [([3, -3, 6], 1), ([-1, 3, 0], 2), ([2, -1, 4], 3)];
    let three = solved::<Residue, _, _>(rt, chooser, dimensions)?;
    assert_eq!(rt; three, (65473, [5, 43655, 10912]));
    let dimensions = [([0, 0, 2], 1), ([0, 3, 5], 2), ([4, 1, 6], 3)];
    let exchanged = solved::<Residue, _, _>(rt, chooser, dimensions)?;
    assert_eq!(rt; exchanged, (65455, [46381, 10913, 32740]));
    Ok(())
}

#[test]
fn small_schemes_in_residues(rt: HostRuntime) -> Result<(), Fail> {
    solved_in_residues(&rt, Topmost)?;
    solved_in_residues(&rt, Greatest)
}

#[test]
fn small_schemes_by_parity(rt: HostRuntime) -> Result<(), Fail> {
    let one = solved::<Parity, _, _>(&rt, Topmost, [([5], 3)])?;
    assert_eq!(rt; one, (1, [1]));
    let two = solved::<Parity, _, _>(&rt, Topmost, [([0, 1], 1), ([1, 1], 0)])?;
    assert_eq!(rt; two, (1, [1, 1]));
    let dimensions = [([0, 1, 0], 7), ([0, 0, 1], 8), ([1, 0, 0], 9)];
    let three = solved::<Parity, _, _>(&rt, Topmost, dimensions)?;
    assert_eq!(rt; three, (1, [1, 1, 0]));
    Ok(())
}

// The first code, the last, and a checksum: each code in turn added to 31 times what came before, modulo 2^32.
fn summary<T: Arithmetic>(run: &[T]) -> (u32, u32, u32) {
    let sum = run
        .iter()
        .fold(0u32, |sum, x| sum.wrapping_mul(31).wrapping_add(x.code()));
    match run {
        [first, .., last] => (first.code(), last.code(), sum),
        _ => (0, 0, sum),
    }
}

// The determinant of ninety-six dense columns by the recurrence, each followed by its target, and a summary of the solution.
fn dense<T: Arithmetic, C: Chooser>(
    rt: &(impl Abort + AllocGlobal),
    chooser: &C,
    seed: u32,
) -> Result<(u32, (u32, u32, u32)), Fail> {
    let mut set = new_set::<T>(rt.alloc(), 96)?;
    let mut column = vec![in rt.alloc(); T::zero(); 96]?;
    let mut answer = vec![in rt.alloc(); T::zero(); 96]?;
    let mut numbers = Recurrence(seed);
    for _ in 0..96 {
        column.as_mut_slice().fill_with(|| numbers.next());
        let target = numbers.next();
        let verdict = set.offer(column.as_slice(), target, answer.as_mut_slice(), chooser)?;
        assert!(rt; matches!(verdict, Taken(_)));
    }
    let sealed = set.seal();
    sealed.solution(answer.as_mut_slice())?;
    Ok((sealed.determinant()?.code(), summary(answer.as_slice())))
}

#[test]
fn dense_schemes(rt: HostRuntime) -> Result<(), Fail> {
    let in_residues = dense::<Residue, _>(&rt, &Topmost, 1)?;
    assert_eq!(rt; in_residues, (65206, (38238, 49765, 3223315653)));
    let by_parity = dense::<Parity, _>(&rt, &Greatest, 11)?;
    assert_eq!(rt; by_parity, (1, (1, 0, 3604549982)));
    Ok(())
}

// The length of the answer comes before the missing column, and a refused call writes nothing.
#[test]
fn columns_missing(rt: HostRuntime) -> Result<(), Fail> {
    let mut set = new_set::<Residue>(rt.alloc(), 2)?;
    let mut answer = [Residue(7); 2];
    let mut long = [Residue(7); 3];
    set.offer(&[0, 2].map(Residue), Residue(6), &mut answer, &Topmost)?;
    let sealed = set.seal();
    assert_eq!(rt; sealed.solution(&mut answer), Err(Refusal::Missing));
    assert_eq!(rt; sealed.solution(&mut long), Err(Refusal::Length));
    assert_eq!(rt; sealed.determinant().err(), Some(Refusal::Missing));
    assert_eq!(rt; sealed.rebuild(1, &mut answer).err(), Some(Refusal::Place));
    assert_eq!(rt; answer.map(Residue::code), [7, 7]);
    assert_eq!(rt; long.map(Residue::code), [7, 7, 7]);
    assert_eq!(rt; sealed.rebuild(0, &mut answer)?.code(), 6);
    assert_eq!(rt; answer.map(Residue::code), [0, 2]);
    Ok(())
}

// A refused set keeps its refusal under the seal, and its memory comes back as it was.
#[test]
fn refused_sets_sealed(rt: HostRuntime) -> Result<(), Fail> {
    for (unknowns, refusal) in [(0, Refusal::Unknowns), (2, Refusal::Memory)] {
        let sealed = OpenSet::make(unknowns, vec![in rt.alloc(); Residue(5); 7]?).seal();
        let mut answer = [Residue(7)];
        let refusals = [
            sealed.refusal(),
            sealed.solution(&mut answer).err(),
            sealed.determinant().err(),
            sealed.enquire(&[Residue(1)], &mut answer).err(),
        ];
        assert_eq!(rt; refusals, [Some(refusal); 4]);
        assert_eq!(rt; (sealed.unknowns(), sealed.held()), (0, 0));
        assert_eq!(rt; answer.map(Residue::code), [7]);
        let memory = sealed.end();
        assert!(rt; memory.iter().map(|x| x.code()).eq([5; 7]));
    }
    Ok(())
}
