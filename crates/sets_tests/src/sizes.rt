// One unknown, two, and ninety-six.
use crate::helpers::{Scheme, new_set};
use arithmetic::{Arithmetic, Residue};
use columns::{Greatest, Topmost};
use sets::Reply::{Fixed, Free};
use sets::Verdict::{Clash, Redundant, Taken};
use std::test::Fail;

#[test]
fn one_unknown(rt: HostRuntime) -> Result<(), Fail> {
    let mut scheme = Scheme::<Residue, _>::new(rt.alloc(), 1, Topmost)?;
    assert_eq!(rt; scheme.offer([0], 0)?, (Redundant, [0]));
    assert_eq!(rt; scheme.offer([0], 5)?, (Clash(0), [0]));
    assert_eq!(rt; scheme.enquire([2])?, (Free, [32740]));
    assert_eq!(rt; scheme.offer([2], 10)?, (Taken(0), [7]));
    assert_eq!(rt; scheme.enquire([3])?, (Fixed(15), [32741]));
    assert_eq!(rt; scheme.offer([4], 20)?, (Redundant, [2]));
    Ok(())
}

#[test]
fn two_unknowns(rt: HostRuntime) -> Result<(), Fail> {
    let mut scheme = Scheme::<Residue, _>::new(rt.alloc(), 2, Greatest)?;
    assert_eq!(rt; scheme.offer([1, 2], 3)?, (Taken(0), [7, 7]));
    assert_eq!(rt; scheme.offer([3, 6], 9)?, (Redundant, [3, 0]));
    assert_eq!(rt; scheme.offer([3, 6], 8)?, (Clash(9), [3, 0]));
    assert_eq!(rt; scheme.offer([1, 1], 2)?, (Taken(1), [7, 7]));
    assert_eq!(rt; scheme.enquire([1, 0])?, (Fixed(1), [65478, 2]));
    Ok(())
}

// Ninety-six unit columns, the last row first, at target 1 each; then the column of ones is their sum.
#[test]
fn ninety_six_unknowns(rt: HostRuntime) -> Result<(), Fail> {
    let mut set = new_set::<Residue>(rt.alloc(), 96)?;
    let mut answer = [Residue(7); 96];
    for i in (0..96).rev() {
        let mut column = [Residue(0); 96];
        column[i] = Residue(1);
        let verdict = set.offer(&column, Residue(1), &mut answer, &Topmost)?;
        assert!(rt; matches!(verdict, Taken(_)));
    }
    assert_eq!(rt; set.held(), 96);
    let verdict = set.offer(&[Residue(1); 96], Residue(96), &mut answer, &Greatest)?;
    assert!(rt; matches!(verdict, Redundant));
    assert_eq!(rt; answer.map(Residue::code), [1; 96]);
    Ok(())
}
