// Columns judged in batches: as by so many offers, and what is refused.
use crate::helpers::{Recurrence, Runs, Scheme, new_set};
use arithmetic::{Arithmetic, Parity, Residue};
use columns::{Chooser, Greatest, KeepFree, Refusal, Topmost};
use sets::OpenSet;
use sets::Verdict::Taken;
use std::process::Abort;
use std::test::Fail;

// Columns as in `Runs` offered one after another, and the numbers of the verdicts.
fn offered<T: Arithmetic, C: Chooser>(
    rt: &(impl Abort + AllocGlobal),
    (count, unknowns): (usize, usize),
    chooser: &C,
) -> Result<(OpenSet<T>, Vec<u8>), Fail> {
    let (mut of_targets, mut of_columns) = (Recurrence(1), Recurrence(2));
    let mut set = new_set(rt.alloc(), unknowns)?;
    let mut verdicts = vec![in rt.alloc(); 9; count]?;
    let mut column = vec![in rt.alloc(); T::zero(); unknowns]?;
    let mut answer = vec![in rt.alloc(); T::zero(); unknowns]?;
    for number in verdicts.iter_mut() {
        column.as_mut_slice().fill_with(|| of_columns.bit());
        let target = of_targets.bit();
        let verdict = set.offer(column.as_slice(), target, answer.as_mut_slice(), chooser)?;
        *number = verdict.number();
    }
    Ok((set, verdicts))
}

// Two sets hold the same columns and targets, at the same pivots.
fn held_alike<T: Arithmetic>(
    rt: &(impl Abort + AllocGlobal),
    one: &OpenSet<T>,
    other: &OpenSet<T>,
) -> Result<(), Fail> {
    assert_eq!(rt; one.held(), other.held());
    let mut column = vec![in rt.alloc(); T::zero(); one.unknowns()]?;
    let mut same = vec![in rt.alloc(); T::zero(); other.unknowns()]?;
    for place in 0..one.held() {
        assert_eq!(rt; one.pivot(place), other.pivot(place));
        let target = one.rebuild(place, column.as_mut_slice())?.code();
        assert_eq!(rt; other.rebuild(place, same.as_mut_slice())?.code(), target);
        let codes = same.iter().map(|x| x.code());
        assert!(rt; column.iter().map(|x| x.code()).eq(codes));
    }
    Ok(())
}

// Batches of every width tried judge so many columns of so many unknowns as offers do.
fn judged_alike<T: Arithmetic, C: Chooser>(
    rt: &(impl Abort + AllocGlobal),
    (count, unknowns): (usize, usize),
    chooser: &C,
) -> Result<(), Fail> {
    let (one, numbers) = offered::<T, C>(rt, (count, unknowns), chooser)?;
    for width in [1, 2, 31, 32] {
        let case = (count, unknowns, width);
        let size = count.saturating_mul(unknowns);
        let room = unknowns.saturating_mul(width);
        let lengths = [count, size, count.saturating_add(3), room.saturating_add(3)];
        let mut runs = Runs::new(rt.alloc(), lengths)?;
        let mut other = new_set::<T>(rt.alloc(), unknowns)?;
        runs.batch(&mut other, width, chooser)?;
        let judged = runs.verdicts.iter().take(count);
        assert!(rt; judged.eq(numbers.iter()), "{case:?}");
        assert!(rt; runs.untouched_from(count, room), "{case:?}");
        held_alike(rt, &one, &other)?;
    }
    Ok(())
}

fn all_judged_alike<T: Arithmetic>(rt: &(impl Abort + AllocGlobal)) -> Result<(), Fail> {
    let mut keep_free = KeepFree::over(Greatest);
    keep_free.mark(0);
    for case in [(0, 3), (1, 1), (5, 1), (5, 6), (70, 6), (45, 40)] {
        judged_alike::<T, _>(rt, case, &Topmost)?;
        judged_alike::<T, _>(rt, case, &Greatest)?;
        judged_alike::<T, _>(rt, case, &keep_free)?;
    }
    Ok(())
}

#[test]
fn batches_judge_as_offers(rt: HostRuntime) -> Result<(), Fail> {
    all_judged_alike::<Residue>(&rt)?;
    all_judged_alike::<Parity>(&rt)?;
    let (_, numbers) = offered::<Residue, _>(&rt, (70, 6), &Topmost)?;
    assert!(rt; [0, 1, 2].iter().all(|n| numbers.as_slice().contains(n)));
    Ok(())
}

// Three faces a, b, c: a - b = -25, b - c = -15, a - c = -40, then a - c = -41, and a = 10.
fn three_faces<C: Chooser + Copy>(rt: &(impl Abort + AllocGlobal), chooser: C) -> Result<(), Fail> {
    let columns = [1, -1, 0, 0, 1, -1, 1, 0, -1, 1, 0, -1, 1, 0, 0];
    for width in 1..=32 {
        let mut faces = Scheme::<Residue, _>::new(rt.alloc(), 3, chooser)?;
        let numbers = faces.batch(&columns, [-25, -15, -40, -41, 10], width)?;
        assert_eq!(rt; numbers, [0, 0, 1, 2, 0], "{width}");
        assert_eq!(rt; faces.rebuild(0)?, ([1, 65478, 0], 65454), "{width}");
        assert_eq!(rt; faces.rebuild(1)?, ([0, 1, 65478], 65464), "{width}");
        assert_eq!(rt; faces.rebuild(2)?, ([1, 0, 0], 10), "{width}");
    }
    Ok(())
}

#[test]
fn three_faces_in_a_batch(rt: HostRuntime) -> Result<(), Fail> {
    three_faces(&rt, Topmost)?;
    three_faces(&rt, Greatest)
}

// What comes of a batch of three unknowns that judges nothing: the set, the verdict list and the work run stay as they were.
fn unjudged(
    rt: &(impl Abort + AllocGlobal),
    lengths: [usize; 4],
    width: usize,
) -> Result<Result<(), Refusal>, Fail> {
    let mut scheme = Scheme::<Residue, _>::new(rt.alloc(), 3, Topmost)?;
    assert_eq!(rt; scheme.offer([1, 2, 3], 4)?, (Taken(0), [7, 7, 7]));
    let mut runs = Runs::new(rt.alloc(), lengths)?;
    let outcome = runs.batch(&mut scheme.set, width, &Topmost);
    assert!(rt; runs.untouched_from(0, 0), "{lengths:?} {width}");
    assert_eq!(rt; scheme.set.held(), 1, "{lengths:?} {width}");
    assert_eq!(rt; scheme.rebuild(0)?, ([1, 2, 3], 4), "{lengths:?} {width}");
    Ok(outcome)
}

// Lengths of the targets, the columns, the verdict list and the work run, beside a width: the lists come before the work.
#[test]
fn batches_refused(rt: HostRuntime) -> Result<(), Fail> {
    for (lengths, width, refusal) in [
        ([2, 5, 2, 96], 1, Refusal::List),
        ([2, 7, 2, 96], 1, Refusal::List),
        ([0, 3, 2, 96], 1, Refusal::List),
        ([2, 6, 1, 96], 1, Refusal::List),
        ([2, 6, 2, 96], 0, Refusal::Work),
        ([2, 6, 2, 99], 33, Refusal::Work),
        ([2, 6, 2, 5], 2, Refusal::Work),
        ([2, 6, 2, 95], 32, Refusal::Work),
        ([0, 0, 0, 95], 32, Refusal::Work),
        ([2, 5, 2, 5], 2, Refusal::List),
        ([2, 6, 1, 99], 33, Refusal::List),
    ] {
        let outcome = unjudged(&rt, lengths, width)?;
        assert_eq!(rt; outcome, Err(refusal), "{lengths:?} {width}");
    }
    Ok(())
}

// A refused set's own refusal comes before those of the lengths and the width.
#[test]
fn batches_on_refused_sets(rt: HostRuntime) -> Result<(), Fail> {
    for (unknowns, lengths, width, refusal) in [
        (0, [2, 5, 1, 9], 33, Refusal::Unknowns),
        (97, [0, 0, 0, 0], 1, Refusal::Unknowns),
        (2, [2, 5, 1, 9], 33, Refusal::Memory),
        (2, [2, 4, 2, 9], 2, Refusal::Memory),
    ] {
        let case = (unknowns, lengths, width);
        let mut set = OpenSet::make(unknowns, vec![in rt.alloc(); Residue(5); 7]?);
        let mut runs = Runs::new(rt.alloc(), lengths)?;
        let refused = runs.batch(&mut set, width, &Topmost);
        assert_eq!(rt; refused, Err(refusal), "{case:?}");
        assert!(rt; runs.untouched_from(0, 0), "{case:?}");
        assert!(rt; set.end().iter().all(|x| x.code() == 5), "{case:?}");
    }
    Ok(())
}

#[test]
fn batches_of_no_columns(rt: HostRuntime) -> Result<(), Fail> {
    for width in 1..=32 {
        assert_eq!(rt; unjudged(&rt, [0, 0, 2, 96], width)?, Ok(()), "{width}");
    }
    Ok(())
}
