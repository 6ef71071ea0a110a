// When the workings refuse, and that they then change nothing.
use arithmetic::{Arithmetic, Residue};
use columns::Refusal::{Length, Place};
use columns::{Refusal, solve_panel, subtract_product, swap_panel, unswap_panel};
use std::process::Abort;
use std::test::Fail;

#[test]
fn swaps_refused(rt: HostRuntime) {
    let mut panel = [1, 2, 3, 4, 5, 6];
    assert_eq!(rt; swap_panel(&mut panel, 4, &[0]), Err(Length));
    assert_eq!(rt; swap_panel(&mut panel, 0, &[]), Err(Length));
    assert_eq!(rt; swap_panel(&mut panel, 4, &[9]), Err(Length));
    assert_eq!(rt; swap_panel(&mut panel, 3, &[3]), Err(Place));
    assert_eq!(rt; swap_panel(&mut panel, 3, &[2, 2]), Err(Place));
    assert_eq!(rt; swap_panel(&mut panel, 3, &[0, usize::MAX]), Err(Place));
    assert_eq!(rt; swap_panel(&mut panel, 3, &[0, 0, 0, 0]), Err(Place));
    assert_eq!(rt; swap_panel(&mut panel[0..0], 0, &[0]), Err(Place));
    assert_eq!(rt; unswap_panel(&mut panel, 5, &[0]), Err(Length));
    assert_eq!(rt; unswap_panel(&mut panel, 2, &[1, 1]), Err(Place));
    assert_eq!(rt; panel, [1, 2, 3, 4, 5, 6]);
}

fn check_refused(
    rt: &impl Abort,
    factors: &[Residue],
    height: usize,
    c: usize,
    panel: &mut [Residue],
) {
    assert_eq!(rt; solve_panel(factors, height, c, panel), Err(Length));
    assert_eq!(rt; subtract_product(factors, height, c, panel), Err(Length));
    assert!(rt; panel.iter().all(|x| x.code() == 7));
}

#[test]
fn workings_refused(rt: HostRuntime) {
    check_refused(&rt, &[Residue(3); 6], 3, 3, &mut [Residue(7); 6]);
    check_refused(&rt, &[Residue(3); 5], 3, 2, &mut [Residue(7); 6]);
    check_refused(&rt, &[Residue(3); 6], 3, 1, &mut [Residue(7); 6]);
    check_refused(&rt, &[Residue(3); 6], 2, 3, &mut [Residue(7); 6]);
    check_refused(&rt, &[Residue(3); 6], 3, 2, &mut [Residue(7); 5]);
    check_refused(&rt, &[], 0, 0, &mut [Residue(7)]);
    check_refused(&rt, &[Residue(3); 6], usize::MAX, 2, &mut [Residue(7); 6]);
    check_refused(&rt, &[], usize::MAX, usize::MAX, &mut [Residue(7); 6]);
}

#[test]
fn numbers(rt: HostRuntime) {
    let table = [
        (Refusal::Unknowns, 1),
        (Refusal::Memory, 2),
        (Refusal::Length, 3),
        (Refusal::List, 4),
        (Refusal::Work, 5),
        (Refusal::Missing, 6),
        (Refusal::Place, 7),
        (Refusal::LineEnd, 8),
        (Refusal::Name, 9),
        (Refusal::Header, 10),
        (Refusal::Value, 11),
        (Refusal::Count, 12),
        (Refusal::Repeated, 13),
    ];
    for (refusal, number) in table {
        assert_eq!(rt; refusal.number(), number, "{refusal:?}");
    }
}

#[test]
fn texts(rt: HostRuntime) -> Result<(), Fail> {
    let table = [
        (
            Refusal::Unknowns,
            "a set's number of unknowns is 0 or above 96",
        ),
        (Refusal::Memory, "a set's memory is too short"),
        (
            Refusal::LineEnd,
            "a sheet is empty, or its last line has no end",
        ),
        (Refusal::Repeated, "a name was used before"),
    ];
    for (refusal, expected) in table {
        let text = format!(in rt.alloc(); "{refusal}")?;
        assert_eq!(rt; text.as_str(), expected);
    }
    Ok(())
}
