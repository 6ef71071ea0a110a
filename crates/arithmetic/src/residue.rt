// Residues modulo the prime 65479.
ghost use Rattle.arithmetic.specs.Elements.{residues, residue};
ghost use Rattle.arithmetic.specs.Lemmas.Residues.{residues_lawful};

use crate::field::Arithmetic;

const PRIME: u16 = 65479;

// Any 16-bit number is an element; its code is its remainder modulo the prime.
#[derive(Clone, Copy, Debug)]
pub struct Residue(pub u16);

impl Arithmetic for Residue {
    ghost field = { residues };

    ghost value = { residue };

    ghost lawful = { residues_lawful };

    fn zero() -> Residue {
        Residue(0)
    }

    fn one() -> Residue {
        Residue(1)
    }

    fn sum(self, other: Residue) -> Residue {
        Residue(((self.0 as u32 + other.0 as u32) % PRIME as u32) as u16)
    }

    fn negative(self) -> Residue {
        Residue(PRIME - self.0 % PRIME)
    }

    fn product(self, other: Residue) -> Residue {
        Residue((self.0 as u32 * other.0 as u32 % PRIME as u32) as u16)
    }

    // As long as `rest` stays above 1, its remainder in the prime is a smaller multiple of the element.
    fn inverse(self) -> Residue {
        let prime = PRIME as u32;
        let mut rest = self.0 as u32 % prime;
        if rest == 0 {
            return Residue::zero();
        }
        let mut factor: u32 = 1;
        while rest > 1 {
            factor = factor * (prime - prime / rest) % prime;
            rest = prime % rest;
        }
        Residue(factor as u16)
    }

    fn code(self) -> u32 {
        self.0 as u32 % PRIME as u32
    }

    fn bring(n: i32) -> Residue {
        Residue(n.rem_euclid(PRIME as i32) as u16)
    }
}
