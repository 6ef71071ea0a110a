// What an arithmetic is.
ghost use Rattle.std.specs.Prelude.{◌≡◌};
ghost use Rattle.arithmetic.specs.Fields.{Arith, Lawful};

// The elements of a finite field. `value` gives each element's value: elements of one code have one value.
pub trait Arithmetic: Copy {
    ghost field: { Arith };

    ghost value: { Self → field.Carrier };

    fn zero() -> Self
        ensures { value result ≡ field.ops.zero };

    fn one() -> Self
        ensures { value result ≡ field.ops.one };

    fn sum(self, other: Self) -> Self
        ensures { value result ≡ field.ops.sum (value self) (value other) };

    fn negative(self) -> Self
        ensures { value result ≡ field.ops.negative (value self) };

    fn product(self, other: Self) -> Self
        ensures { value result ≡ field.ops.product (value self) (value other) };

    // The inverse of zero is zero.
    fn inverse(self) -> Self
        ensures { value result ≡ field.ops.inverse (value self) };

    fn code(self) -> u32
        ensures { result ≡ field.ops.code (value self) };

    // The element that a whole number is brought in as.
    fn bring(n: i32) -> Self
        ensures { value result ≡ field.ops.bring n };

    ghost lawful: { Lawful field.ops };
}
