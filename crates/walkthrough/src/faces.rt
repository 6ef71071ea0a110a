// The faces of the valve body along its axis.
use std::fmt;

#[derive(Clone, Copy, Debug, PartialEq, Eq)]
pub enum Face {
    Seat,
    Shoulder,
    Flange,
    Groove,
    EndFace,
}

// In the order of their unknowns.
pub const FACES: [Face; 5] = [
    Face::Seat,
    Face::Shoulder,
    Face::Flange,
    Face::Groove,
    Face::EndFace,
];

impl fmt::Display for Face {
    fn fmt<W: fmt::Write>(&self, f: &mut fmt::Formatter<W>) -> fmt::Result {
        let name = match self {
            Face::Seat => "seat",
            Face::Shoulder => "shoulder",
            Face::Flange => "flange",
            Face::Groove => "groove",
            Face::EndFace => "end face",
        };
        write!(f, "{name}")
    }
}
