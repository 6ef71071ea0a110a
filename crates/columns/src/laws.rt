// What is true of columns in every arithmetic.
ghost use Rattle.std.specs.Prelude.{◌≡◌};
ghost use Rattle.columns.specs.Theory.{Theory};

use arithmetic::Arithmetic;

// The theory of columns, over the elements of an arithmetic. What it returns is their zero.
pub fn theory_holds<T: Arithmetic>() -> T
    ensures theory { Theory T.field.ops }
    ensures zero { T.value result ≡ T.field.ops.zero }
{
    T::zero()
}
