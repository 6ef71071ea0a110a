// The workings on panels.
use arithmetic::{Arithmetic, Parity, Residue};
use columns::{solve_panel, subtract_product, swap_panel, unswap_panel};
use std::test::Fail;

#[test]
fn swaps_in_order_and_backwards(rt: HostRuntime) -> Result<(), Fail> {
    let mut panel = [1, 2, 3, 4, 5, 6, 7, 8];
    swap_panel(&mut panel, 4, &[2, 1, 1])?;
    assert_eq!(rt; panel, [3, 1, 4, 2, 7, 5, 8, 6]);
    unswap_panel(&mut panel, 4, &[2, 1, 1])?;
    assert_eq!(rt; panel, [1, 2, 3, 4, 5, 6, 7, 8]);
    unswap_panel(&mut panel, 4, &[2, 1, 1])?;
    assert_eq!(rt; panel, [2, 4, 1, 3, 6, 8, 5, 7]);
    Ok(())
}

// Two columns of L, of height 4; what stands on and above its diagonal is not looked at.
#[test]
fn residues_solved_and_reduced(rt: HostRuntime) -> Result<(), Fail> {
    let lower = [7, 65478, 30000, 12, 5, 9, 65477, 40000].map(Residue);
    let mut panel = [100, 200, 300, 400, 65478, 1, 65535, 0].map(Residue);
    solve_panel(&lower, 4, 2, &mut panel)?;
    assert_eq!(rt;
        panel.map(Residue::code),
        [100, 300, 300, 400, 65478, 0, 56, 0]
    );
    subtract_product(&lower, 4, 2, &mut panel)?;
    assert_eq!(rt;
        panel.map(Residue::code),
        [100, 300, 12934, 47336, 65478, 0, 30056, 12]
    );
    Ok(())
}

#[test]
fn parities_solved_and_reduced(rt: HostRuntime) -> Result<(), Fail> {
    let lower = [1, 1, 0, 1, 0, 1, 1, 1].map(Parity::bring);
    let mut panel = [1, 0, 1, 1, 1, 1, 0, 0].map(Parity::bring);
    solve_panel(&lower, 4, 2, &mut panel)?;
    assert_eq!(rt; panel.map(Parity::code), [1, 1, 1, 1, 1, 0, 0, 0]);
    subtract_product(&lower, 4, 2, &mut panel)?;
    assert_eq!(rt; panel.map(Parity::code), [1, 1, 0, 1, 1, 0, 0, 1]);
    Ok(())
}

// The third of the columns (3, -3, 6), (-1, 3, 0), (2, -1, 4) by the factors of the first two: (2, 1, -1).
#[test]
fn a_column_worked_by_two_others(rt: HostRuntime) -> Result<(), Fail> {
    let lower = [3, 65478, 2, 65478, 2, 1].map(Residue);
    let mut column = [2, 65478, 4].map(Residue);
    swap_panel(&mut column, 3, &[0, 0])?;
    solve_panel(&lower, 3, 2, &mut column)?;
    subtract_product(&lower, 3, 2, &mut column)?;
    assert_eq!(rt; column.map(Residue::code), [2, 1, 65478]);
    Ok(())
}

// c = 0 changes nothing.
#[test]
fn no_columns_of_factors(rt: HostRuntime) -> Result<(), Fail> {
    let mut panel = [5, 6].map(Residue);
    solve_panel(&[], 2, 0, &mut panel)?;
    subtract_product(&[], 2, 0, &mut panel)?;
    assert_eq!(rt; panel.map(Residue::code), [5, 6]);
    Ok(())
}

// c = height leaves nothing to reduce.
#[test]
fn as_many_columns_of_factors_as_rows(rt: HostRuntime) -> Result<(), Fail> {
    let lower = [1, 2, 3, 4].map(Residue);
    let mut panel = [5, 6].map(Residue);
    solve_panel(&lower, 2, 2, &mut panel)?;
    assert_eq!(rt; panel.map(Residue::code), [5, 65475]);
    subtract_product(&lower, 2, 2, &mut panel)?;
    assert_eq!(rt; panel.map(Residue::code), [5, 65475]);
    Ok(())
}

#[test]
fn panels_of_no_columns() -> Result<(), Fail> {
    let mut none: [Residue; 0] = [];
    swap_panel(&mut none, 0, &[])?;
    swap_panel(&mut none, 5, &[4])?;
    solve_panel(&[Residue(1)], 1, 1, &mut none)?;
    subtract_product(&[], 0, 0, &mut none)?;
    Ok(())
}
