// What is true of every history of a set.
ghost use Rattle.std.specs.Prelude.{◌≡◌};
ghost use Rattle.sets.specs.Laws.{Laws};

use arithmetic::Arithmetic;

// The laws of sets, over the elements of an arithmetic. What it returns is their zero.
pub fn laws_hold<T: Arithmetic>() -> T
    ensures laws { Laws T.field.ops }
    ensures zero { T.value result ≡ T.field.ops.zero }
{
    T::zero()
}
