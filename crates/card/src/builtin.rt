// The built-in card: 128 words that it holds itself.
ghost use Rattle.std.specs.Prelude.{◌≡◌};
ghost use Rattle.card.specs.Builtin.{builtin_card, builtin_of, blank};
ghost use Rattle.card.specs.BuiltinLaws.{builtin_laws};

use crate::cards::Card;
use crate::widths::{is_proper, shown_width};
use word::{Fault, Word, check_place, check_width};

#[derive(Drop)]
pub struct BuiltinCard {
    // the width that it was made with
    width: u8,
    words: [Word; 128],
}

impl BuiltinCard {
    // A card of zeros. With a width outside 1 to 72 it has width 72 and no places.
    pub fn new(width: u8) -> BuiltinCard
        ensures { builtin_of result ≡ blank width }
    {
        BuiltinCard {
            width,
            words: [Word::ZERO; 128],
        }
    }
}

impl Card for BuiltinCard {
    ghost model = { builtin_card };

    ghost state = { builtin_of };

    ghost laws = { builtin_laws };

    fn width(&self) -> u8 {
        shown_width(self.width)
    }

    fn count(&self) -> u32 {
        if is_proper(self.width) {
            self.words.len() as u32
        } else {
            0
        }
    }

    fn read(&mut self, place: u16) -> Result<Word, Fault> {
        check_place(place, self.count())?;
        Ok(self.words[place as usize].split(self.width).0)
    }

    fn write(&mut self, place: u16, word: Word) -> Result<(), Fault> {
        check_place(place, self.count())?;
        check_width(word, self.width, place)?;
        self.words[place as usize] = word;
        Ok(())
    }
}
