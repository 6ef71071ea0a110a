// Why a call is refused.
ghost use Rattle.std.specs.Prelude.{◌≡◌};
ghost use Rattle.columns.specs.Refusals.{refusal_number};

// The cases of all parts, each with its number.
#[derive(Clone, Copy, PartialEq, Eq, Debug, thiserror::Error)]
pub enum Refusal {
    #[error("a set's number of unknowns is 0 or above 96")]
    Unknowns = 1,
    #[error("a set's memory is too short")]
    Memory = 2,
    #[error("a column, a query or an answer is not as long as there are unknowns, or the lengths of a working disagree")]
    Length = 3,
    #[error("a batch's columns or a verdict list have the wrong length")]
    List = 4,
    #[error("the width is not 1 to 32, or a work run is too short")]
    Work = 5,
    #[error("a solution or a determinant is asked for while columns are missing")]
    Missing = 6,
    #[error("a place is not held, or a pivot leads out of its panel")]
    Place = 7,
    #[error("a sheet is empty, or its last line has no end")]
    LineEnd = 8,
    #[error("a name is misspelt")]
    Name = 9,
    #[error("the header does not end with `target` where it should")]
    Header = 10,
    #[error("a value is misspelt")]
    Value = 11,
    #[error("a line has too few or too many values")]
    Count = 12,
    #[error("a name was used before")]
    Repeated = 13,
}

impl Refusal {
    pub fn number(self) -> u8
        ensures { result ≡ refusal_number self }
    {
        self as u8
    }
}
