// The pair: two cards side by side, as one card of both widths.
ghost use Rattle.layers.specs.Pairs.{pair_card};
ghost use Rattle.layers.specs.PairLaws.{pair_laws};

use card::Card;
use word::{Fault, Side, Word, check_place, check_width};

// Where the widths of the two make more than 72 it has width 72 and no places.
#[derive(Drop)]
pub struct PairCard<L, H> {
    // has the cells below its width
    pub low: L,
    // has the cells from there on
    pub high: H,
}

impl<L: Card, H: Card> Card for PairCard<L, H> {
    ghost model = { pair_card L.Card.model H.Card.model };

    ghost state = { λ c. record { low = L.Card.state c.low; high = H.Card.state c.high } };

    ghost laws = { pair_laws L.Card.model H.Card.model L.Card.laws H.Card.laws };

    fn width(&self) -> u8 {
        (self.low.width() + self.high.width()).min(72)
    }

    fn count(&self) -> u32 {
        if self.low.width() + self.high.width() <= 72 {
            self.low.count().min(self.high.count())
        } else {
            0
        }
    }

    fn read(&mut self, place: u16) -> Result<Word, Fault> {
        check_place(place, self.count())?;
        let at = self.low.width();
        let low = self
            .low
            .read(place)
            .map_err(|fault| fault.pass_up_from(Side::Low))?;
        let high = self
            .high
            .read(place)
            .map_err(|fault| fault.pass_up_from(Side::High))?;
        Ok(Word::join(low, high, at))
    }

    fn write(&mut self, place: u16, word: Word) -> Result<(), Fault> {
        check_place(place, self.count())?;
        check_width(word, self.width(), place)?;
        let (low, high) = word.split(self.low.width());
        // Both cards have this place, and the width of their part, so they grant the writes.
        self.low.write(place, low)?;
        self.high.write(place, high)
    }
}
