// The functions on elements of any arithmetic.
use arithmetic::{Arithmetic, Parity, Residue, difference, is_zero, same, sum_of_products};

#[test]
fn elements_of_one_code_are_the_same(rt: HostRuntime) {
    assert!(rt; same(Residue(0), Residue(65479)));
    assert!(rt; same(Residue(56), Residue(65535)));
    assert!(rt; !same(Residue(0), Residue(65478)));
    assert!(rt; is_zero(Residue(65479)));
    assert!(rt; !is_zero(Residue(65480)));
    assert!(rt; is_zero(Parity::Even));
    assert!(rt; !is_zero(Parity::Odd));
}

#[test]
fn differences(rt: HostRuntime) {
    assert_eq!(rt; difference(Residue(1), Residue(2)).code(), 65478);
    assert_eq!(rt; difference(Residue(2), Residue(65480)).code(), 1);
    assert_eq!(rt; difference(Parity::Even, Parity::Odd).code(), 1);
}

// 3 · 5 + 65478 · 7 + 65535 · 2 = 3 · 5 - 7 + 56 · 2 = 120; the shorter run ends the sum.
#[test]
fn sums_of_products(rt: HostRuntime) {
    let a = [3, 65478, 65535].map(Residue);
    let b = [5, 7, 2, 9].map(Residue);
    assert_eq!(rt; sum_of_products(&a, &b).code(), 120);
    assert_eq!(rt; sum_of_products(&b, &a).code(), 120);
    assert_eq!(rt; sum_of_products(&a[0..2], &b).code(), 8);
    assert_eq!(rt; sum_of_products(&a[0..0], &b).code(), 0);
    let odd = [Parity::Odd, Parity::Odd, Parity::Even];
    assert_eq!(rt; sum_of_products(&odd, &odd).code(), 0);
}
