// Why a call is refused.
ghost use Rattle.std.specs.Prelude.{◌≡◌, Some};
ghost use Rattle.word.specs.Faults.{number_of, name_of};

use std::fmt;

// In the order in which the conditions are checked, but for a script's line, where 9 comes first, then 8, then the others.
#[derive(Clone, Copy, PartialEq, Eq, Debug)]
pub enum Refusal {
    // the place is not below the count
    Place = 1,
    // the word does not fit the width
    Wide = 2,
    // the byte enables name a lane that the word has not
    Enable = 3,
    // the cell is not one of the raw word's
    Cell = 4,
    // an even number of ones in a syndrome that is not zero: a double error
    Two = 5,
    // an odd syndrome that belongs to no cell: three errors or more
    Many = 6,
    // a lane's parity bit is wrong
    Parity = 7,
    // the script line is none of a command's
    Line = 8,
    // too little output is left, or the script is too long
    Space = 9,
}

// The number that is printed and told to planners.
impl From<Refusal> for u8 {
    ghost from_gives = { λ refusal number. number ≡ number_of refusal };

    fn from(refusal: Refusal) -> u8 {
        refusal as u8
    }
}

// The name by which people know it.
impl fmt::Display for Refusal {
    ghost output = { λ refusal. Some (name_of refusal) };

    fn fmt<W: fmt::Write>(&self, f: &mut fmt::Formatter<W>) -> fmt::Result {
        f.write_str(match self {
            Refusal::Place => "PLACE",
            Refusal::Wide => "WIDE",
            Refusal::Enable => "ENABLE",
            Refusal::Cell => "CELL",
            Refusal::Two => "TWO",
            Refusal::Many => "MANY",
            Refusal::Parity => "PARITY",
            Refusal::Line => "LINE",
            Refusal::Space => "SPACE",
        })
    }
}
