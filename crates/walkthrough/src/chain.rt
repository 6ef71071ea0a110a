// Chains of dimensions.
ghost use Rattle.std.specs.Prelude.{◌≡◌, pos, ◌+ℤ◌, fold};
ghost use Rattle.arithmetic.specs.Runs.{Tells};

use arithmetic::{Arithmetic, same};

// What the lengths add up to: the element of their sum, however large that is.
pub fn chained<T: Arithmetic>(lengths: &[i32]) -> T
    ensures { T.value result ≡ T.field.ops.bring (fold ◌+ℤ◌ (pos 0) lengths.now) }
{
    let mut sum = T::zero();
    for length in lengths {
        sum = sum.sum(T::bring(*length));
    }
    sum
}

// Whether the lengths add up to the closing dimension, as far as the arithmetic can tell.
pub fn closes<T: Arithmetic>(lengths: &[i32], closing: T) -> bool
    ensures { Tells result (T.field.ops.bring (fold ◌+ℤ◌ (pos 0) lengths.now) ≡ T.value closing) }
{
    same(chained::<T>(lengths), closing)
}
