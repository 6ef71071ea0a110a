// One dimension worked by another, by hand.
ghost use Rattle.std.specs.Prelude.{◌≡◌, [], ◌∷◌};
ghost use Rattle.std.specs.Result.{result_err};
ghost use Rattle.columns.specs.Panels.{swap_refusal};

use arithmetic::Residue;
use columns::{Refusal, solve_panel, subtract_product, swap_panel};

// A dimension of three unknowns: a residue for each.
pub type Column = [Residue; 3];

// The column swapped, solved and reduced by one held column and its pivot. Refused only where the pivot leads out of it.
pub fn eliminated(held: &Column, pivot: usize, column: Column) -> Result<Column, Refusal>
    ensures { result_err result ≡ swap_refusal 3 3 (pivot ∷ []) }
{
    let mut worked = column;
    swap_panel(&mut worked, 3, &[pivot])?;
    solve_panel(held, 3, 1, &mut worked)?;
    subtract_product(held, 3, 1, &mut worked)?;
    Ok(worked)
}
