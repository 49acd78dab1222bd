// The interface of a memory.
ghost use Rattle.std.specs.Prelude.{◌≡◌};
ghost use Rattle.word.specs.Words.{value};
ghost use Rattle.card.specs.Cards.{CardModel, CardLaws, read_answer, read_state, write_answer, write_state};

use word::{Fault, Word};

// A card has a width w in cells, a count N of places, and at each place an entry: a word below 2^w, or a fault.
// Each call settles the card's whole next state, so that of every layer below too.
pub trait Card {
    ghost model: { CardModel };

    ghost state: { Self → model.State };

    fn width(&self) -> u8
        ensures { result ≡ model.width (state self.now) };

    fn count(&self) -> u32
        ensures { result ≡ model.count (state self.now) };

    // The entry of a place; a unit below may log that it was read.
    fn read(&mut self, place: u16) -> Result<Word, Fault>
        ensures answer { result ≡ read_answer model (state self.old) place }
        ensures after { state self.new ≡ read_state model (state self.old) place };

    // The entry of a place becomes the word.
    fn write(&mut self, place: u16, word: Word) -> Result<(), Fault>
        ensures answer { result ≡ write_answer model (state self.old) place (value word) }
        ensures after { state self.new ≡ write_state model (state self.old) place (value word) };

    ghost laws: { CardLaws model };
}
