// Pivot choices.
ghost use Rattle.std.specs.Prelude.{◌≡◌, [], ◌∷◌, Some};

use columns::{Chooser, Greatest, KeepFree, Topmost};

pub fn picked_places() -> [Option<usize>; 4]
    ensures { result ≡ Some 1 ∷ (Some 0 ∷ (Some 2 ∷ (Some 0 ∷ []))) }
{
    let mut keep_free = KeepFree::over(Topmost);
    keep_free.mark(0);
    [
        Greatest.choose(&[3, 65476, 6], &[0, 1, 2]),
        Greatest.choose(&[4, 4], &[0, 1]),
        keep_free.choose(&[7, 0, 2], &[0, 1, 2]),
        keep_free.choose(&[7, 0, 0], &[0, 1, 2]),
    ]
}
