// The eight calls of a unit, and their answers, as values.
ghost use Rattle.std.specs.Prelude.{◌≡◌};
ghost use Rattle.unit.specs.States.{state_of};
ghost use Rattle.unit.specs.Steps.{step};

use crate::units::Unit;
use card::Card;
use code::Code;
use error_log::FirstError;
use word::{Fault, Word};

#[derive(Clone, Copy, PartialEq, Eq, Debug)]
pub enum Call {
    // place
    Read(u16),
    // place and word
    Write(u16, Word),
    // place, word and enables
    Merge(u16, Word, u8),
    // place
    Scrub(u16),
    // place and cell
    Inject(u16, u8),
    Log,
    First,
    Clear,
}

// What a granted call gives.
#[derive(Clone, Copy, PartialEq, Eq, Debug)]
pub enum Reply {
    // nothing to tell
    Done,
    // the word that a read gives
    Gave(Word),
    // the word that a merge or a scrub read, or none
    Merged(Option<Word>),
    // the log word
    LogWord(u32),
    // the first error, or none
    FirstWas(Option<FirstError>),
}

// What a call is answered: a reply, or the fault with which it is refused.
pub type Answer = Result<Reply, Fault>;

impl<C: Code, D: Card> Unit<C, D> {
    // Makes one call.
    pub fn make(&mut self, call: Call) -> Answer
        ensures answer { result ≡ (step C.Code.code D.Card.model (state_of D.Card.state self.old) call).answer }
        ensures after { state_of D.Card.state self.new ≡ (step C.Code.code D.Card.model (state_of D.Card.state self.old) call).state }
    {
        match call {
            Call::Read(place) => self.read(place).map(Reply::Gave),
            Call::Write(place, word) => self.write(place, word).map(|()| Reply::Done),
            Call::Merge(place, word, enables) => {
                self.merge(place, word, enables).map(Reply::Merged)
            }
            Call::Scrub(place) => self.scrub(place).map(Reply::Merged),
            Call::Inject(place, cell) => self.inject(place, cell).map(|()| Reply::Done),
            Call::Log => Ok(Reply::LogWord(self.log())),
            Call::First => Ok(Reply::FirstWas(self.first())),
            Call::Clear => {
                self.clear();
                Ok(Reply::Done)
            }
        }
    }
}
