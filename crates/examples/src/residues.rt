// Residues.
ghost use Rattle.std.specs.Prelude.{◌≡◌, [], ◌∷◌};
ghost use Rattle.examples.specs.Worked.{Worked};

use arithmetic::{Arithmetic, Residue};

pub fn residue_codes() -> [u32; 3]
    ensures defined { Worked }
    ensures computed { result ≡ 32740 ∷ (65478 ∷ (0 ∷ [])) }
{
    [
        Residue(2).inverse().code(),
        Residue::bring(-1).code(),
        Residue::bring(65479).code(),
    ]
}
