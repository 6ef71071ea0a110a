// Small functions on the elements of any arithmetic.
ghost use Rattle.std.specs.Prelude.{◌≡◌, min, length};
ghost use Rattle.arithmetic.specs.Fields.{SettledByCodes, AllZero};
ghost use Rattle.arithmetic.specs.Runs.{Tells, row, dot};

use crate::field::Arithmetic;

// Whether two elements have one code. Such elements stand for each other in every operation.
pub fn same<T: Arithmetic>(a: T, b: T) -> bool
    ensures answer { Tells result (T.value a ≡ T.value b) }
    ensures settled { SettledByCodes T.field.ops }
{
    a.code() == b.code()
}

// Whether an element is zero. Not every element is.
pub fn is_zero<T: Arithmetic>(a: T) -> bool
    ensures answer { Tells result (T.value a ≡ T.field.ops.zero) }
    ensures not_all { AllZero T.field.ops → ⊥ }
{
    a.code() == 0
}

pub fn difference<T: Arithmetic>(a: T, b: T) -> T
    ensures { T.value result ≡ T.field.ops.sum (T.value a) (T.field.ops.negative (T.value b)) }
{
    a.sum(b.negative())
}

// The sum of the products of two runs, over the places that both have.
pub fn sum_of_products<T: Arithmetic>(a: &[T], b: &[T]) -> T
    ensures { T.value result ≡ dot T.field.ops (min (length a.now) (length b.now)) (row T.field.ops T.value a.now) (row T.field.ops T.value b.now) }
{
    let mut sum = T::zero();
    for (x, y) in a.iter().zip(b) {
        sum = sum.sum(x.product(*y));
    }
    sum
}
