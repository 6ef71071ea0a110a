// The three workings on a panel of columns, and the undoing of swaps.
ghost use Rattle.std.specs.Prelude.{◌≡◌, ◌*◌, ◌<◌, ◌≤◌, length, OnOk, MatchResult};
ghost use Rattle.std.specs.Result.{result_err};
ghost use Rattle.arithmetic.specs.Runs.{row, total};
ghost use Rattle.columns.specs.Panels.{EachColumn, Leaves, Swaps, Unswaps, Solves, Reduces, cells, PivotsInside, inside_from, swap_refusal, factor_refusal};

use crate::refusal::Refusal;
use arithmetic::{Arithmetic, difference};

// Swaps each column of a panel by a pivot list: row k with row k + pivot k, in order.
pub fn swap_panel<T>(panel: &mut [T], height: usize, pivots: &[usize]) -> Result<(), Refusal>
    ensures refused { result_err result ≡ swap_refusal (length panel.old) height pivots.now }
    ensures swapped { MatchResult result (λ _. EachColumn height (Swaps pivots.now) panel.old panel.new) (λ _. panel.new ≡ panel.old) }
{
    check_swap(panel.len(), height, pivots)?;
    each_column(panel, height, |column| swap_rows(column, pivots));
    Ok(())
}

// Undoes those swaps, the last first.
pub fn unswap_panel<T>(panel: &mut [T], height: usize, pivots: &[usize]) -> Result<(), Refusal>
    ensures refused { result_err result ≡ swap_refusal (length panel.old) height pivots.now }
    ensures unswapped { MatchResult result (λ _. EachColumn height (Unswaps pivots.now) panel.old panel.new) (λ _. panel.new ≡ panel.old) }
{
    check_swap(panel.len(), height, pivots)?;
    each_column(panel, height, |column| unswap_rows(column, pivots));
    Ok(())
}

// Solves the rows before c of each column by the unit lower L of c columns.
pub fn solve_panel<T: Arithmetic>(
    factors: &[T],
    height: usize,
    c: usize,
    panel: &mut [T],
) -> Result<(), Refusal>
    ensures refused { result_err result ≡ factor_refusal (length factors.now) height c (length panel.old) }
    ensures solved { MatchResult result (λ _. EachColumn height (Solves T.field.ops T.value (cells T.field.ops T.value height factors.now) c) panel.old panel.new) (λ _. panel.new ≡ panel.old) }
{
    check_factors(factors.len(), height, c, panel.len())?;
    each_column(panel, height, |column| solve_rows(column, factors, c));
    Ok(())
}

// Subtracts L's product with the rows before c from the rows from c on, in each column.
pub fn subtract_product<T: Arithmetic>(
    factors: &[T],
    height: usize,
    c: usize,
    panel: &mut [T],
) -> Result<(), Refusal>
    ensures refused { result_err result ≡ factor_refusal (length factors.now) height c (length panel.old) }
    ensures reduced { MatchResult result (λ _. EachColumn height (Reduces T.field.ops T.value (cells T.field.ops T.value height factors.now) c) panel.old panel.new) (λ _. panel.new ≡ panel.old) }
{
    check_factors(factors.len(), height, c, panel.len())?;
    each_column(panel, height, |column| reduce_rows(column, factors, c));
    Ok(())
}

// Whether the whole columns of a panel can be swapped: where they are whole, and every pivot stays within the height.
fn check_swap(size: usize, height: usize, pivots: &[usize]) -> Result<(), Refusal>
    ensures refused { result_err result ≡ swap_refusal size height pivots.now }
    ensures inside { OnOk result (PivotsInside height pivots.now) }
{
    if !size.is_multiple_of(height) {
        return Err(Refusal::Length);
    }
    if !inside(height, pivots) {
        return Err(Refusal::Place);
    }
    Ok(())
}

// Whether every pivot stays within the height.
fn inside(height: usize, pivots: &[usize]) -> bool
    ensures { result ≡ inside_from height 0 pivots.now }
{
    for (k, offset) in pivots.iter().enumerate() {
        if *offset >= height.saturating_sub(k) {
            return false;
        }
    }
    true
}

// Whether c columns of factors can work on the columns of a panel.
fn check_factors(factors: usize, height: usize, c: usize, size: usize) -> Result<(), Refusal>
    ensures refused { result_err result ≡ factor_refusal factors height c size }
    ensures narrow { OnOk result (c ≤ height) }
    ensures full { OnOk result (factors ≡ c * height) }
{
    if c > height || c.checked_mul(height) != Some(factors) || !size.is_multiple_of(height) {
        return Err(Refusal::Length);
    }
    Ok(())
}

// Works on each whole column of a panel, one after another.
fn each_column<T, F: Fn(&mut [T])>(panel: &mut [T], height: usize, work: F)
    requires { (column : _) → length column.now ≡ height → F.pre work column }
    ensures { EachColumn height (Leaves (F.post work)) panel.old panel.new }
{
    if height == 0 {
        return;
    }
    for j in 0..panel.len() / height {
        let start = j * height;
        work(&mut panel[start..start + height]);
    }
}

// Swaps row k of a column with row k + pivot k, in order.
fn swap_rows<T>(column: &mut [T], pivots: &[usize])
    requires { PivotsInside (length column.old) pivots.now }
    ensures { Swaps pivots.now column.old column.new }
{
    for (k, offset) in pivots.iter().enumerate() {
        column.swap(k, k + *offset);
    }
}

// Undoes those swaps, the last first.
fn unswap_rows<T>(column: &mut [T], pivots: &[usize])
    requires { PivotsInside (length column.old) pivots.now }
    ensures { Unswaps pivots.now column.old column.new }
{
    for k in (0..pivots.len()).rev() {
        column.swap(k, k + pivots[k]);
    }
}

// Solves the rows before c of a column by the unit lower L of c columns.
fn solve_rows<T: Arithmetic>(column: &mut [T], factors: &[T], c: usize)
    requires narrow { c ≤ length column.old }
    requires full { c * length column.old ≤ length factors.now }
    ensures { Solves T.field.ops T.value (cells T.field.ops T.value (length column.old) factors.now) c column.old column.new }
{
    for i in 0..c {
        column[i] = difference(column[i], share(factors, column, i, i));
    }
}

// Subtracts L's product with the rows before c of a column from its rows from c on.
fn reduce_rows<T: Arithmetic>(column: &mut [T], factors: &[T], c: usize)
    requires narrow { c ≤ length column.old }
    requires full { c * length column.old ≤ length factors.now }
    ensures { Reduces T.field.ops T.value (cells T.field.ops T.value (length column.old) factors.now) c column.old column.new }
{
    for i in c..column.len() {
        column[i] = difference(column[i], share(factors, column, i, c));
    }
}

// The sum of row i of the first n columns of L, each times the column's entry of that number.
fn share<T: Arithmetic>(factors: &[T], column: &[T], i: usize, n: usize) -> T
    requires inside { i < length column.now }
    requires narrow { n ≤ length column.now }
    requires full { n * length column.now ≤ length factors.now }
    ensures { T.value result ≡ total T.field.ops n (λ k. T.field.ops.product (cells T.field.ops T.value (length column.now) factors.now k i) (row T.field.ops T.value column.now k)) }
{
    let mut sum = T::zero();
    for (k, x) in column[..n].iter().enumerate() {
        let at = k * column.len() + i;
        sum = sum.sum(factors[at].product(*x));
    }
    sum
}
