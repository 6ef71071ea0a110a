// Pivot choices.
use columns::{Chooser, Greatest, KeepFree, Topmost};

#[test]
fn the_first_and_the_greatest(rt: HostRuntime) {
    let unknowns = [4, 3, 2, 1, 0];
    let table = [
        ([0, 0, 0, 0, 0], None, None),
        ([0, 0, 0, 0, 9], Some(4), Some(4)),
        ([5, 0, 0, 0, 0], Some(0), Some(0)),
        ([0, 3, 65478, 3, 65478], Some(1), Some(2)),
        ([1, 2, 3, 4, 5], Some(0), Some(4)),
        ([8, 8, 8, 8, 8], Some(0), Some(0)),
        ([0, 0, u32::MAX, 1, u32::MAX], Some(2), Some(2)),
    ];
    for (codes, first, greatest) in table {
        assert_eq!(rt; Topmost.choose(&codes, &unknowns), first, "{codes:?}");
        assert_eq!(rt; Greatest.choose(&codes, &unknowns), greatest, "{codes:?}");
    }
}

#[test]
fn lists_that_do_not_fit_get_none(rt: HostRuntime) {
    let codes = [1; 97];
    let unknowns = [0; 97];
    assert_eq!(rt; Topmost.choose(&codes[0..96], &unknowns[0..96]), Some(0));
    assert_eq!(rt; Topmost.choose(&codes, &unknowns), None);
    assert_eq!(rt; Topmost.choose(&codes[0..3], &unknowns[0..2]), None);
    assert_eq!(rt; Topmost.choose(&codes[0..0], &unknowns[0..0]), None);
    assert_eq!(rt; Greatest.choose(&codes[0..96], &unknowns[0..96]), Some(0));
    assert_eq!(rt; Greatest.choose(&codes, &unknowns), None);
    assert_eq!(rt; Greatest.choose(&codes[0..2], &unknowns[0..3]), None);
    let keep_free = KeepFree::over(Greatest);
    assert_eq!(rt; keep_free.choose(&codes[0..96], &unknowns[0..96]), Some(0));
    assert_eq!(rt; keep_free.choose(&codes, &unknowns), None);
    assert_eq!(rt; keep_free.choose(&codes[0..2], &unknowns[0..1]), None);
}

#[test]
fn marked_unknowns_are_kept_free(rt: HostRuntime) {
    let unknowns = [95, 7, 96, 7];
    let mut keep_free = KeepFree::over(Greatest);
    assert_eq!(rt; keep_free.choose(&[9, 8, 7, 6], &unknowns), Some(0));
    keep_free.mark(95);
    keep_free.mark(96);
    keep_free.mark(usize::MAX);
    assert_eq!(rt; keep_free.choose(&[9, 8, 7, 6], &unknowns), Some(1));
    keep_free.mark(7);
    assert_eq!(rt; keep_free.choose(&[9, 8, 7, 6], &unknowns), Some(2));
    assert_eq!(rt; keep_free.choose(&[9, 8, 0, 6], &unknowns), Some(0));
    assert_eq!(rt; keep_free.choose(&[0, 0, 0, 6], &unknowns), Some(3));
    assert_eq!(rt; keep_free.choose(&[0, 0, 0, 0], &unknowns), None);
}

// The outer one masks first; where nothing is left, the inner one still masks its own.
#[test]
fn keep_free_over_keep_free(rt: HostRuntime) {
    let mut inner = KeepFree::over(Topmost);
    inner.mark(0);
    let mut both = KeepFree::over(inner);
    both.mark(1);
    assert_eq!(rt; both.choose(&[5, 6, 7], &[0, 1, 2]), Some(2));
    assert_eq!(rt; both.choose(&[5, 6, 0], &[0, 1, 2]), Some(0));
    assert_eq!(rt; both.choose(&[0, 6, 0], &[0, 1, 2]), Some(1));
    assert_eq!(rt; both.choose(&[0, 0, 0], &[0, 1, 2]), None);
}
