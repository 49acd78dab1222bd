// A card of eight cells whose places are faulty until they are written.
ghost use Rattle.card_tests.specs.Worn.{worn_card};
ghost use Rattle.std.proofs.Common.{rules};

use card::Card;
use word::{Fault, Refusal, Word, check_place, check_width};

// Four places: a byte, or none where the place is faulty.
#[derive(Drop)]
pub struct WornCard {
    pub bytes: [Option<u8>; 4],
}

impl Card for WornCard {
    ghost model = { worn_card };

    ghost state = { λ c. c.bytes };

    ghost laws = { Prim.search rules };

    fn width(&self) -> u8 {
        8
    }

    fn count(&self) -> u32 {
        self.bytes.len() as u32
    }

    fn read(&mut self, place: u16) -> Result<Word, Fault> {
        check_place(place, self.count())?;
        self.bytes[place as usize]
            .map(|byte| Word::from(byte as u64))
            .ok_or(Fault::arise(Refusal::Many, place))
    }

    fn write(&mut self, place: u16, word: Word) -> Result<(), Fault> {
        check_place(place, self.count())?;
        check_width(word, 8, place)?;
        self.bytes[place as usize] = Some(word.low as u8);
        Ok(())
    }
}
