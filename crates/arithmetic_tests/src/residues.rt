// Residues and parities at their edges.
use arithmetic::{Arithmetic, Parity, Residue};

#[test]
fn inverses(rt: HostRuntime) {
    let table = [
        (0, 0),
        (1, 1),
        (2, 32740),
        (3, 43653),
        (7, 56125),
        (255, 10528),
        (256, 2302),
        (32739, 65477),
        (32740, 2),
        (46341, 26492),
        (65477, 32739),
        (65478, 65478),
        (65479, 0),
        (65480, 1),
        (65481, 32740),
        (65535, 47940),
    ];
    for (a, inverse) in table {
        assert_eq!(rt; Residue(a).inverse().code(), inverse, "{a}");
    }
}

#[test]
fn products_and_sums(rt: HostRuntime) {
    let table = [
        (65478, 65478, 1, 65477),
        (65478, 1, 65478, 0),
        (65535, 65535, 3136, 112),
        (65479, 65535, 0, 56),
        (65479, 65479, 0, 0),
        (32740, 2, 1, 32742),
        (256, 256, 57, 512),
        (40000, 50000, 9424, 24521),
        (65480, 65478, 65478, 0),
        (1, 65535, 56, 57),
    ];
    for (a, b, product, sum) in table {
        assert_eq!(rt; Residue(a).product(Residue(b)).code(), product, "{a}, {b}");
        assert_eq!(rt; Residue(a).sum(Residue(b)).code(), sum, "{a}, {b}");
    }
}

#[test]
fn negatives(rt: HostRuntime) {
    for (a, negative) in [
        (0, 0),
        (1, 65478),
        (65478, 1),
        (65479, 0),
        (65480, 65478),
        (65535, 65423),
    ] {
        assert_eq!(rt; Residue(a).negative().code(), negative, "{a}");
    }
}

#[test]
fn whole_numbers_brought_in(rt: HostRuntime) {
    let table = [
        (i32::MIN, 31115, 0),
        (i32::MAX, 34363, 1),
        (-999999, 47665, 1),
        (-65480, 65478, 0),
        (-65479, 0, 1),
        (-1, 65478, 1),
        (0, 0, 0),
        (1, 1, 1),
        (65478, 65478, 0),
        (65479, 0, 1),
        (65480, 1, 0),
        (999999, 17814, 1),
    ];
    for (n, residue, parity) in table {
        assert_eq!(rt; Residue::bring(n).code(), residue, "{n}");
        assert_eq!(rt; Parity::bring(n).code(), parity, "{n}");
    }
}

#[test]
fn parities(rt: HostRuntime) {
    let table = [
        (Parity::Even, Parity::Even, 0, 0),
        (Parity::Even, Parity::Odd, 1, 0),
        (Parity::Odd, Parity::Even, 1, 0),
        (Parity::Odd, Parity::Odd, 0, 1),
    ];
    for (a, b, sum, product) in table {
        assert_eq!(rt; a.sum(b).code(), sum);
        assert_eq!(rt; a.product(b).code(), product);
        assert_eq!(rt; a.negative().code(), a.code());
        assert_eq!(rt; a.inverse().code(), a.code());
    }
    assert_eq!(rt; Parity::zero().code(), 0);
    assert_eq!(rt; Parity::one().code(), 1);
}
