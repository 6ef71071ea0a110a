// Sets that are refused, and calls that are.
use crate::helpers::{Scheme, new_set};
use arithmetic::{Arithmetic, Residue};
use columns::{Refusal, Topmost};
use sets::OpenSet;
use sets::Verdict::Taken;
use std::test::Fail;

// Every call on a refused set gets its refusal, and the memory comes back as it was.
#[test]
fn sets_refused(rt: HostRuntime) -> Result<(), Fail> {
    for (unknowns, size, refusal) in [
        (0, 100, Refusal::Unknowns),
        (97, 10000, Refusal::Unknowns),
        (usize::MAX, 0, Refusal::Unknowns),
        (96, 9407, Refusal::Memory),
        (1, 2, Refusal::Memory),
    ] {
        let case = (unknowns, size);
        let memory = vec![in rt.alloc(); Residue(5); size]?;
        let mut set = OpenSet::make(unknowns, memory);
        let mut answer = [Residue(7)];
        let refusals = [
            set.refusal(),
            set.offer(&[Residue(1)], Residue(1), &mut answer, &Topmost)
                .err(),
            set.enquire(&[Residue(1)], &mut answer).err(),
            set.rebuild(0, &mut answer).err(),
        ];
        assert_eq!(rt; refusals, [Some(refusal); 4], "{case:?}");
        assert_eq!(rt; (set.unknowns(), set.held()), (0, 0), "{case:?}");
        assert_eq!(rt; answer.map(Residue::code), [7], "{case:?}");
        let memory = set.end();
        assert_eq!(rt; memory.len(), size, "{case:?}");
        assert!(rt; memory.iter().all(|x| x.code() == 5), "{case:?}");
    }
    Ok(())
}

#[test]
fn calls_refused(rt: HostRuntime) -> Result<(), Fail> {
    let mut set = new_set::<Residue>(rt.alloc(), 2)?;
    let run = [1, 2, 3].map(Residue);
    let mut answer = [Residue(7); 3];
    let refusals = [
        set.offer(&run, Residue(1), &mut answer[0..2], &Topmost)
            .err(),
        set.offer(&run[0..2], Residue(1), &mut answer, &Topmost)
            .err(),
        set.enquire(&run[0..1], &mut answer[0..2]).err(),
        set.rebuild(0, &mut answer).err(),
    ];
    assert_eq!(rt; refusals, [Some(Refusal::Length); 4]);
    let refusal = set.rebuild(0, &mut answer[0..2]).err();
    assert_eq!(rt; refusal, Some(Refusal::Place));
    assert_eq!(rt; set.held(), 0);
    assert_eq!(rt; answer.map(Residue::code), [7, 7, 7]);
    Ok(())
}

#[test]
fn held_after_a_refused_offer(rt: HostRuntime) -> Result<(), Fail> {
    let mut scheme = Scheme::<Residue, _>::new(rt.alloc(), 2, Topmost)?;
    assert_eq!(rt; scheme.offer([1, 2], 3)?, (Taken(0), [7, 7]));
    let short = [Residue(1)];
    let mut answer = [Residue(7); 2];
    let refused = scheme.set.offer(&short, Residue(1), &mut answer, &Topmost);
    assert_eq!(rt; refused.err(), Some(Refusal::Length));
    assert_eq!(rt; scheme.set.held(), 1);
    assert_eq!(rt; scheme.rebuild(0)?, ([1, 2], 3));
    Ok(())
}

// What lies beyond the set's room comes back as it was.
#[test]
fn surplus_untouched(rt: HostRuntime) -> Result<(), Fail> {
    let memory = vec![in rt.alloc(); Residue(9); 13]?;
    let mut set = OpenSet::make(2, memory);
    let mut answer = [Residue(0); 2];
    set.offer(&[0, 1].map(Residue), Residue(4), &mut answer, &Topmost)?;
    set.offer(&[3, 1].map(Residue), Residue(5), &mut answer, &Topmost)?;
    let memory = set.end();
    assert_eq!(rt; memory.len(), 13);
    assert!(rt; memory.iter().skip(8).all(|x| x.code() == 9));
    Ok(())
}
