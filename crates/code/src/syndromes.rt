// What a syndrome says of a raw word.
ghost use Rattle.std.specs.Prelude.{Some};
ghost use Rattle.code.specs.Texts.{words_of};

use std::fmt;

#[derive(Clone, Copy, PartialEq, Eq, Debug)]
pub enum Located {
    // the check bits agree
    Clean,
    // this data cell is wrong, 0 to n - 1
    Data(u8),
    // this check cell is wrong, 0 to k - 1
    Check(u8),
    // an even number of ones: two cells are wrong
    Two,
    // an odd number of ones that is no cell's: more than two are wrong
    Many,
}

// In words, as a decode table prints it.
impl fmt::Display for Located {
    ghost output = { λ located. Some (words_of located) };

    fn fmt<W: fmt::Write>(&self, f: &mut fmt::Formatter<W>) -> fmt::Result {
        match self {
            Located::Clean => f.write_str("clean"),
            Located::Data(cell) => write!(f, "data {cell}"),
            Located::Check(cell) => write!(f, "check {cell}"),
            Located::Two => f.write_str("two"),
            Located::Many => f.write_str("many"),
        }
    }
}
