// Even and odd: whole numbers modulo 2.
ghost use Rattle.std.specs.Prelude.{◌≡◌};
ghost use Rattle.arithmetic.specs.Elements.{parities, parity};
ghost use Rattle.arithmetic.specs.Lemmas.Parities.{parities_lawful};

use crate::field::Arithmetic;

#[derive(Clone, Copy, PartialEq, Eq, Debug)]
pub enum Parity {
    Even = 0,
    Odd = 1,
}

impl Parity {
    // One more.
    fn flipped(self) -> Parity
        ensures { parity result ≡ parities.ops.sum parities.ops.one (parity self) }
    {
        match self {
            Parity::Even => Parity::Odd,
            Parity::Odd => Parity::Even,
        }
    }
}

impl Arithmetic for Parity {
    ghost field = { parities };

    ghost value = { parity };

    ghost lawful = { parities_lawful };

    fn zero() -> Parity {
        Parity::Even
    }

    fn one() -> Parity {
        Parity::Odd
    }

    fn sum(self, other: Parity) -> Parity {
        match self {
            Parity::Even => other,
            Parity::Odd => other.flipped(),
        }
    }

    fn negative(self) -> Parity {
        self
    }

    fn product(self, other: Parity) -> Parity {
        match self {
            Parity::Even => Parity::Even,
            Parity::Odd => other,
        }
    }

    fn inverse(self) -> Parity {
        self
    }

    fn code(self) -> u32 {
        self as u32
    }

    fn bring(n: i32) -> Parity {
        if n.rem_euclid(2) == 0 {
            Parity::Even
        } else {
            Parity::Odd
        }
    }
}
