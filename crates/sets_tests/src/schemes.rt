// Small schemes, judged under every chooser.
use crate::helpers::Scheme;
use arithmetic::{Parity, Residue};
use columns::{Chooser, Greatest, KeepFree, Topmost};
use sets::Reply::{Fixed, Free};
use sets::Verdict::{Clash, Redundant, Taken};
use std::process::Abort;
use std::test::Fail;

// Three faces a, b, c: a - b = -25, b - c = -15, so a - c = -40.
fn three_faces<C: Chooser + Drop>(rt: &(impl Abort + AllocGlobal), chooser: C) -> Result<(), Fail> {
    let mut faces = Scheme::<Residue, _>::new(rt.alloc(), 3, chooser)?;
    assert_eq!(rt; faces.offer([1, -1, 0], -25)?, (Taken(0), [7, 7, 7]));
    assert_eq!(rt; faces.offer([0, 1, -1], -15)?, (Taken(1), [7, 7, 7]));
    assert_eq!(rt; faces.offer([1, 0, -1], -40)?, (Redundant, [1, 1, 0]));
    assert_eq!(rt; faces.offer([1, 0, -1], -41)?, (Clash(65439), [1, 1, 0]));
    assert_eq!(rt; faces.enquire([1, 0, -1])?, (Fixed(65439), [1, 1, 0]));
    assert_eq!(rt; faces.enquire([0, 0, 1])?, (Free, [1, 1, 1]));
    assert_eq!(rt; faces.offer([1, 0, 0], 10)?, (Taken(2), [7, 7, 7]));
    assert_eq!(rt; faces.enquire([0, 0, 1])?, (Fixed(50), [65478, 65478, 1]));
    assert_eq!(rt; faces.rebuild(0)?, ([1, 65478, 0], 65454));
    assert_eq!(rt; faces.rebuild(1)?, ([0, 1, 65478], 65464));
    assert_eq!(rt; faces.rebuild(2)?, ([1, 0, 0], 10));
    Ok(())
}

#[test]
fn three_faces_under_every_chooser(rt: HostRuntime) -> Result<(), Fail> {
    three_faces(&rt, Topmost)?;
    three_faces(&rt, Greatest)?;
    let mut keep_free = KeepFree::over(Greatest);
    keep_free.mark(0);
    three_faces(&rt, keep_free)
}

// Columns whose rows change places: the second and third by topmost, too.
#[test]
fn columns_rebuilt_after_exchanges(rt: HostRuntime) -> Result<(), Fail> {
    let mut scheme = Scheme::<Residue, _>::new(rt.alloc(), 3, Topmost)?;
    assert_eq!(rt; scheme.offer([0, 0, 2], 1)?, (Taken(0), [7, 7, 7]));
    assert_eq!(rt; scheme.offer([0, 3, 5], 2)?, (Taken(1), [7, 7, 7]));
    assert_eq!(rt; scheme.set.pivot(0), Some(2));
    assert_eq!(rt; scheme.offer([4, 1, 6], 3)?, (Taken(2), [7, 7, 7]));
    assert_eq!(rt; scheme.set.held(), 3);
    assert_eq!(rt; scheme.set.pivot(3), None);
    assert_eq!(rt; scheme.rebuild(0)?, ([0, 0, 2], 1));
    assert_eq!(rt; scheme.rebuild(1)?, ([0, 3, 5], 2));
    assert_eq!(rt; scheme.rebuild(2)?, ([4, 1, 6], 3));
    Ok(())
}

#[test]
fn the_same_columns_by_parity(rt: HostRuntime) -> Result<(), Fail> {
    let mut scheme = Scheme::<Parity, _>::new(rt.alloc(), 3, Greatest)?;
    assert_eq!(rt; scheme.offer([3, -3, 6], 0)?, (Taken(0), [1, 1, 1]));
    assert_eq!(rt; scheme.offer([-1, 3, 0], 0)?, (Redundant, [1, 0, 0]));
    assert_eq!(rt; scheme.offer([-1, 3, 0], 1)?, (Clash(0), [1, 0, 0]));
    assert_eq!(rt; scheme.offer([2, -1, 4], 0)?, (Taken(1), [1, 1, 1]));
    assert_eq!(rt; scheme.enquire([1, 0, 0])?, (Fixed(0), [1, 1, 0]));
    assert_eq!(rt; scheme.enquire([0, 0, 1])?, (Free, [0, 0, 1]));
    Ok(())
}
