// The byte card: words in a byte buffer that the caller lends.
ghost use Rattle.std.specs.Prelude.{◌≡◌};
ghost use Rattle.word.specs.Words.{value};
ghost use Rattle.card.specs.Cards.{write_answer, write_state};
ghost use Rattle.card.specs.Bytes.{byte_card, lent};
ghost use Rattle.card.specs.ByteLaws.{byte_laws};

use crate::buffers::{Buffer, WORD_BYTES, load};
use crate::cards::Card;
use crate::widths::{is_proper, shown_width};
use word::{Fault, Word, check_place, check_width};

#[derive(Drop)]
pub struct ByteCard<B> {
    // the width that it was made with
    width: u8,
    bytes: B,
}

impl<'a> ByteCard<&'a mut [u8]> {
    // A card over what the buffer holds. With a width outside 1 to 72 it has width 72 and no places.
    pub fn new(width: u8, bytes: &'a mut [u8]) -> ByteCard<&'a mut [u8]>
        ensures { lent result.width result.bytes ≡ lent width bytes.entry }
    {
        ByteCard { width, bytes }
    }
}

impl<B: Buffer> Card for ByteCard<B> {
    ghost model = { byte_card };

    ghost state = { λ c. record { made_with = c.width; bytes = B.Buffer.held c.bytes; loan = B.Buffer.loan c.bytes } };

    ghost laws = { byte_laws };

    fn width(&self) -> u8 {
        shown_width(self.width)
    }

    fn count(&self) -> u32 {
        if is_proper(self.width) {
            (self.bytes.bytes().len() / WORD_BYTES).min(0x1_0000) as u32
        } else {
            0
        }
    }

    fn read(&mut self, place: u16) -> Result<Word, Fault> {
        check_place(place, self.count())?;
        let word = load(self.bytes.bytes(), place as usize * WORD_BYTES);
        Ok(word.split(self.width).0)
    }

    fn write(&mut self, place: u16, word: Word) -> Result<(), Fault> {
        check_place(place, self.count())?;
        check_width(word, self.width, place)?;
        self.bytes.put(place as usize * WORD_BYTES, word);
        Ok(())
    }
}

// A write to a buffer that is the caller's again afterwards.
pub fn write_to_buffer(width: u8, bytes: &mut [u8], place: u16, word: Word) -> Result<(), Fault>
    ensures answer { result ≡ write_answer byte_card (lent width bytes.entry) place (value word) }
    ensures after { bytes.new ≡ (write_state byte_card (lent width bytes.entry) place (value word)).bytes }
{
    let mut card = ByteCard::new(width, bytes);
    card.write(place, word)
}
