// The determinant of as many columns as rows.
ghost use Rattle.std.specs.Prelude.{◌≡◌, if◌then◌else◌, nat_eq};
ghost use Rattle.columns.specs.Determinants.{factored_determinant};
ghost use Rattle.sets.specs.Lent.{lent};

use super::Factors;
use arithmetic::Arithmetic;

// The product so far, its sign turned unless the pivot leaves its row where it is.
fn turned<T: Arithmetic>(product: T, offset: usize) -> T
    ensures { T.value result ≡ (if nat_eq offset 0 then T.value product else T.field.ops.negative (T.value product)) }
{
    if offset == 0 {
        product
    } else {
        product.negative()
    }
}

impl<T: Arithmetic> Factors<'_, T> {
    // The product of U's diagonal, its sign turned by each pivot that really swaps.
    pub(crate) fn determinant(&self) -> T
        ensures { T.value result ≡ factored_determinant T.field.ops (lent T.field.ops T.value self.now) }
    {
        let mut product = T::one();
        for (k, offset) in self.pivots[..self.rank].iter().enumerate() {
            product = turned(product, *offset).product(self.entry(k, k));
        }
        product
    }
}
