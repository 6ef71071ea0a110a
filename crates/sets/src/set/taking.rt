// What working and taking a column change in a set's slots.
ghost use Rattle.std.specs.Prelude.{◌≡◌, ℕ, ◌+◌, ◌*◌, ◌<◌, ◌≤◌, length};
ghost use Rattle.arithmetic.specs.Runs.{row};
ghost use Rattle.columns.specs.Swaps.{put, joined, exchange};
ghost use Rattle.columns.specs.Factors.{worked};
ghost use Rattle.columns.specs.Panels.{cells};
ghost use Rattle.sets.specs.Pivots.{PivotsWithin};
ghost use Rattle.sets.specs.Memory.{packed};
ghost use Rattle.sets.specs.Workings.{divided_below};

use crate::factors::Factors;
use arithmetic::Arithmetic;

// The column after the packed ones is worked by them.
fn work_next<T: Arithmetic>(
    columns: &[T],
    height: usize,
    rank: usize,
    pivots: &[usize],
    next: &mut [T],
)
    requires fits { rank ≤ height }
    requires stored { rank * height ≤ length columns.now }
    requires counted { rank ≤ length pivots.now }
    requires inside { PivotsWithin height rank pivots.now }
    requires high { length next.old ≡ height }
    ensures { row T.field.ops T.value next.new ≡ worked T.field.ops (packed T.field.ops T.value height rank columns.now pivots.now) (row T.field.ops T.value next.old) }
{
    let factors = Factors {
        columns,
        height,
        rank,
        pivots,
    };
    factors.work(next);
}

// A column is put into slot `rank`.
pub(super) fn put_column<T: Arithmetic>(slots: &mut [T], height: usize, rank: usize, column: &[T])
    requires stored { (rank + 1) * height ≤ length slots.old }
    requires high { length column.now ≡ height }
    ensures { cells T.field.ops T.value height slots.new ≡ put rank (row T.field.ops T.value column.now) (cells T.field.ops T.value height slots.old) }
{
    let start = rank * height;
    slots[start..start + height].copy_from_slice(column);
}

// A column is put into slot `rank`, worked by those before it.
pub(super) fn work_column<T: Arithmetic>(
    slots: &mut [T],
    height: usize,
    rank: usize,
    pivots: &[usize],
    column: &[T],
)
    requires fits { rank ≤ height }
    requires counted { rank ≤ length pivots.now }
    requires stored { (rank + 1) * height ≤ length slots.old }
    requires inside { PivotsWithin height rank pivots.now }
    requires high { length column.now ≡ height }
    ensures { cells T.field.ops T.value height slots.new ≡ put rank (worked T.field.ops (packed T.field.ops T.value height rank slots.old pivots.now) (row T.field.ops T.value column.now)) (cells T.field.ops T.value height slots.old) }
{
    let (columns, others) = slots.split_at_mut(rank * height);
    let next = &mut others[..height];
    next.copy_from_slice(column);
    work_next(columns, height, rank, pivots, next);
}

// Exchanges rows a and b in the first n columns.
pub(super) fn exchange_rows<T: Arithmetic>(
    memory: &mut [T],
    height: usize,
    n: usize,
    a: usize,
    b: usize,
)
    requires stored { n * height ≤ length memory.old }
    requires first { a < height }
    requires second { b < height }
    ensures { cells T.field.ops T.value height memory.new ≡ joined n (λ j i. cells T.field.ops T.value height memory.old j (exchange a b i)) (cells T.field.ops T.value height memory.old) }
{
    for j in 0..n {
        memory.swap(j * height + a, j * height + b);
    }
}

// Divides the rows after row `rank` of a column by that row.
pub(super) fn divide<T: Arithmetic>(column: &mut [T], rank: usize)
    requires { rank < length column.old }
    ensures { row T.field.ops T.value column.new ≡ divided_below T.field.ops rank (row T.field.ops T.value column.old) }
{
    let inverse = column[rank].inverse();
    for x in &mut column[rank + 1..] {
        *x = x.product(inverse);
    }
}

// The worked column in slot `rank` is taken with pick q, and its target stored.
pub(super) fn take_column<T: Arithmetic>(
    slots: &mut [T],
    height: usize,
    rank: usize,
    q: usize,
    target: T,
)
    requires place { rank + q < height }
    requires stored { height * (height + 2) ≤ length slots.old }
    ensures held { (j : ℕ) → j < rank → cells T.field.ops T.value height slots.new j ≡ (λ i. cells T.field.ops T.value height slots.old j (exchange rank (rank + q) i)) }
    ensures next { cells T.field.ops T.value height slots.new rank ≡ divided_below T.field.ops rank (λ i. cells T.field.ops T.value height slots.old rank (exchange rank (rank + q) i)) }
    ensures targets { cells T.field.ops T.value height slots.new (height + 1) ≡ put rank (T.value target) (cells T.field.ops T.value height slots.old (height + 1)) }
    ensures others { (j : ℕ) → rank < j → (j ≡ height + 1 → ⊥) → cells T.field.ops T.value height slots.new j ≡ cells T.field.ops T.value height slots.old j }
{
    exchange_rows(slots, height, rank + 1, rank, rank + q);
    let start = rank * height;
    divide(&mut slots[start..start + height], rank);
    slots[(height + 1) * height + rank] = target;
}
