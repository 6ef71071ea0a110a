// What is said of a column offered.
ghost use Rattle.std.specs.Prelude.{◌≡◌, List};
ghost use Rattle.sets.specs.States.{verdict_number};
ghost use Rattle.sets.specs.Sets.{seen};

use arithmetic::Arithmetic;

#[derive(Clone, Copy, Debug, PartialEq, Eq)]
pub enum Verdict<T> {
    // Held from now on, at this place.
    Taken(usize),
    // A combination of the held columns, of the target's value.
    Redundant,
    // A combination of the held columns, of this value and not the target's.
    Clash(T),
}

impl<T: Arithmetic> Verdict<T> {
    // 0 taken, 1 redundant, 2 a clash.
    pub fn number(&self) -> u8
        ensures { (answer : List T) → result ≡ verdict_number (seen T.field.ops T.value self.now answer) }
    {
        match self {
            Verdict::Taken(_) => 0,
            Verdict::Redundant => 1,
            Verdict::Clash(_) => 2,
        }
    }
}
