// A whole number below 2^72.
ghost use Rattle.std.specs.Prelude.{◌≡◌, ◌+◌, ◌*◌, ◌/◌, ◌%◌, ◌^◌, ◌<◌, if◌then◌else◌, Ok, Err, nat_lt};
ghost use Rattle.word.specs.Words.{value, of_value, toggled};
ghost use Rattle.word.specs.declared.refusals.Refusal.TheVariants.{Wide};

use crate::refusals::Refusal;

// A cell is one bit of a word, cell 0 the lowest.
#[derive(Clone, Copy, PartialEq, Eq, Debug)]
pub struct Word {
    // cells 0 to 63
    pub low: u64,
    // cells 64 to 71
    pub top: u8,
}

// The word of 64 cells.
impl From<u64> for Word {
    ghost from_gives = { λ low word. word ≡ record { low = low; top = 0 } };

    fn from(low: u64) -> Word {
        Word { low, top: 0 }
    }
}

// The word of a number, if it is below 2^72.
impl TryFrom<u128> for Word {
    type Error = Refusal;

    ghost try_from_gives = { λ number word. word ≡ (if nat_lt number (2 ^ 72) then Ok (of_value number) else Err Wide) };

    fn try_from(number: u128) -> Result<Word, Refusal> {
        if number < 0x100_0000_0000_0000_0000 {
            Ok(Word::narrow(number))
        } else {
            Err(Refusal::Wide)
        }
    }
}

// The number that a word is, which is below 2^72.
impl From<Word> for u128 {
    ghost from_gives = { λ word number. (number ≡ value word) × (number < 2 ^ 72) };

    #[tactic(auto, using(crate::proofs::Values::value_below))]
    fn from(word: Word) -> u128 {
        word.low as u128 + word.top as u128 * 0x1_0000_0000_0000_0000
    }
}

impl Word {
    pub const ZERO: Word = Word { low: 0, top: 0 };

    // Whether the word is below 2^width.
    #[tactic(auto, using(crate::proofs::Values::fits_held))]
    pub fn fits(self, width: u8) -> bool
        ensures { result ≡ nat_lt (value self) (2 ^ width) }
    {
        u128::from(self) < 1u128 << width.min(72)
    }

    // The word with one cell complemented; no word has a cell from 72 on, and none changes for it.
    pub fn flip(self, cell: u8) -> Word
        ensures { result ≡ of_value (toggled cell (value self)) }
    {
        if cell < 64 {
            Word {
                low: self.low ^ (1u64 << cell),
                top: self.top,
            }
        } else if cell < 72 {
            Word {
                low: self.low,
                top: self.top ^ (1u8 << (cell - 64)),
            }
        } else {
            self
        }
    }

    // The cells below `at`, and those from `at` on moved down to cell 0.
    #[tactic(auto, using(crate::proofs::Values::power_held, crate::proofs::Values::mod_held, crate::proofs::Values::div_held))]
    pub fn split(self, at: u8) -> (Word, Word)
        ensures { result ≡ (of_value (value self % 2 ^ at), of_value (value self / 2 ^ at)) }
    {
        let number = u128::from(self);
        let at = at.min(72);
        (
            Word::narrow(number % (1u128 << at)),
            Word::narrow(number >> at),
        )
    }

    // `high` moved up to cell `at`, above `low`; what would pass cell 71 is dropped.
    #[tactic(auto, using(crate::proofs::Values::join_held))]
    pub fn join(low: Word, high: Word, at: u8) -> Word
        ensures { result ≡ of_value ((value low + 2 ^ at * value high) % 2 ^ 72) }
    {
        let moved = (u128::from(high) << at.min(72)) % 0x100_0000_0000_0000_0000;
        Word::narrow((moved + u128::from(low)) % 0x100_0000_0000_0000_0000)
    }

    // The word of a number that is known to be below 2^72.
    fn narrow(number: u128) -> Word
        requires { number < 2 ^ 72 }
        ensures { result ≡ of_value number }
    {
        Word {
            low: (number % 0x1_0000_0000_0000_0000) as u64,
            top: (number / 0x1_0000_0000_0000_0000) as u8,
        }
    }
}
