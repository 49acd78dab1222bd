// A unit's reads and writes over parts that the caller holds: a code, a card and, for a read, a log.
ghost use Rattle.std.specs.Prelude.{◌≡◌};
ghost use Rattle.word.specs.Words.{value};
ghost use Rattle.card.specs.Cards.{read_answer, read_state, write_answer, write_state};
ghost use Rattle.error_log.specs.Logs.{new_log, log_word, LogKept};
ghost use Rattle.parts.specs.Units.{unit_card};

use crate::decoding::{lay, take};
use card::Card;
use code::Code;
use error_log::Log;
use word::{Fault, Word, check_place, check_width};

// How many places a unit has over this card: all of them where its raw words fit, else none.
pub fn places<C: Code, D: Card>(code: &C, card: &D) -> u32
    ensures { result ≡ (unit_card C.Code.code D.Card.model).count (record { log = new_log; card = D.Card.state card.now }) }
{
    if card.width() == code.raw_width() {
        card.count()
    } else {
        0
    }
}

// The word at a place, put right; the raw word below is recorded in the log, sound or not.
pub fn read_over<C: Code, D: Card>(
    code: &C,
    card: &mut D,
    log: &mut Log,
    place: u16,
) -> Result<Word, Fault>
    ensures answer { result ≡ read_answer (unit_card C.Code.code D.Card.model) (record { log = log.entry.now.state; card = D.Card.state card.old }) place }
    ensures noted { log.exit.now.state ≡ (read_state (unit_card C.Code.code D.Card.model) (record { log = log.entry.now.state; card = D.Card.state card.old }) place).log }
    ensures after { D.Card.state card.new ≡ (read_state (unit_card C.Code.code D.Card.model) (record { log = log.entry.now.state; card = D.Card.state card.old }) place).card }
{
    check_place(place, places(code, card))?;
    let raw = card.read(place).map_err(Fault::pass_up)?;
    take(code, log, place, raw)
}

// The word at a place becomes this one, with its check bits.
pub fn write_over<C: Code, D: Card>(
    code: &C,
    card: &mut D,
    place: u16,
    word: Word,
) -> Result<(), Fault>
    ensures answer { result ≡ write_answer (unit_card C.Code.code D.Card.model) (record { log = new_log; card = D.Card.state card.old }) place (value word) }
    ensures after { D.Card.state card.new ≡ (write_state (unit_card C.Code.code D.Card.model) (record { log = new_log; card = D.Card.state card.old }) place (value word)).card }
{
    check_place(place, places(code, card))?;
    check_width(word, code.data_width(), place)?;
    // The card below has this place and this width, so it grants the write.
    card.write(place, lay(code, word.low))
}

// The log word: kind, counter and syndrome of the latest error, then the partial and the check bits last taken.
pub fn log_word<C: Code>(code: &C, log: &Log) -> u32
    ensures told { result ≡ log_word C.Code.code log.now.state }
    ensures kept { LogKept log.now.state.counter log.now.state.kind }
{
    let taken = log.taken().map_or(0, |raw| {
        code.partial(raw.data) as u32 * 0x100 + raw.check as u32
    });
    log.errors() as u32 * 0x1_0000 + taken
}
