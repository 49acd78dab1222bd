// A unit over any code and any card.
ghost use Rattle.std.specs.Prelude.{◌≡◌, ◌/◌, ◌^◌, ◌<◌, ◌≤◌};
ghost use Rattle.error_log.specs.Logs.{new_log, log_word, LogKept};
ghost use Rattle.word.specs.Words.{value};
ghost use Rattle.card.specs.Cards.{write_answer, write_state};
ghost use Rattle.parts.specs.Merges.{joined};
ghost use Rattle.parts.specs.Units.{unit_card, merged, kept, all_lanes, scrubbed, injected};
ghost use Rattle.unit.specs.States.{state_of};
ghost use Rattle.parts.proofs.UnitLaws.{unit_laws};

use card::Card;
use code::Code;
use error_log::{FirstError, Log};
use parts::{log_word, merge_words, places, read_over, write_over};
use word::{Fault, Refusal, Word, check_place, check_width};

// Stores check bits beside every word of the card below, puts one wrong cell right, and logs what its readings meet.
#[derive(Drop)]
pub struct Unit<C: Code, D: Card> {
    code: C,
    card: D,
    log: Log,
}

impl<C: Code, D: Card> Unit<C, D> {
    // A unit with a new log over a card, whatever the card holds.
    pub fn new(code: C, card: D) -> Unit<C, D>
        ensures { state_of D.Card.state result ≡ record { log = new_log; card = D.Card.state card } }
    {
        Unit {
            code,
            card,
            log: Log::new(),
        }
    }

    // Stores the lanes of `word` whose enables are clear and keeps those whose enables are set, with fresh check bits.
    // With a lane kept it reads first, and gives the word read; with none kept it is a write, and gives no word.
    pub fn merge(&mut self, place: u16, word: Word, enables: u8) -> Result<Option<Word>, Fault>
        ensures answer { result ≡ (merged C.Code.code D.Card.model (state_of D.Card.state self.old) place (value word) enables).answer }
        ensures after { state_of D.Card.state self.new ≡ (merged C.Code.code D.Card.model (state_of D.Card.state self.old) place (value word) enables).state }
    {
        check_place(place, self.count())?;
        check_width(word, self.code.data_width(), place)?;
        if enables as u16 >= 1u16 << self.lanes() {
            return Err(Fault::arise(Refusal::Enable, place));
        }
        if enables == 0 {
            self.write(place, word)?;
            return Ok(None);
        }
        self.merge_kept(place, word.low, enables)
    }

    // A merge that keeps a lane, its arguments granted.
    fn merge_kept(&mut self, place: u16, new: u64, enables: u8) -> Result<Option<Word>, Fault>
        requires place_bound { place < (unit_card C.Code.code D.Card.model).count (state_of D.Card.state self.old) }
        requires word_bound { new < 2 ^ C.Code.code.n }
        ensures answer { result ≡ (kept C.Code.code D.Card.model (state_of D.Card.state self.old) place new enables).answer }
        ensures after { state_of D.Card.state self.new ≡ (kept C.Code.code D.Card.model (state_of D.Card.state self.old) place new enables).state }
    {
        let old = self.read(place)?;
        self.store_merged(place, old.low, new, enables)?;
        Ok(Some(old))
    }

    // Stores an old word and a new one merged, with fresh check bits, also where the old one was sound.
    fn store_merged(&mut self, place: u16, old: u64, new: u64, enables: u8) -> Result<(), Fault>
        ensures answer { result ≡ write_answer (unit_card C.Code.code D.Card.model) (state_of D.Card.state self.old) place (value (record { low = joined 8 enables old new; top = 0 })) }
        ensures after { state_of D.Card.state self.new ≡ write_state (unit_card C.Code.code D.Card.model) (state_of D.Card.state self.old) place (value (record { low = joined 8 enables old new; top = 0 })) }
    {
        let low = merge_words(enables, old, new);
        self.write(place, Word::from(low))
    }

    // A merge that keeps every lane: stores the word that it read, put right, with fresh check bits, and gives it.
    pub fn scrub(&mut self, place: u16) -> Result<Option<Word>, Fault>
        ensures answer { result ≡ (scrubbed C.Code.code D.Card.model (state_of D.Card.state self.old) place).answer }
        ensures after { state_of D.Card.state self.new ≡ (scrubbed C.Code.code D.Card.model (state_of D.Card.state self.old) place).state }
    {
        self.merge(place, Word::ZERO, self.every_lane())
    }

    // The enables that keep every lane.
    fn every_lane(&self) -> u8
        ensures { result ≡ all_lanes C.Code.code D.Card.model }
    {
        ((1u16 << self.lanes()) - 1) as u8
    }

    // How many lanes a word has.
    fn lanes(&self) -> u8
        ensures lanes { result ≡ C.Code.code.n / 8 }
        ensures few { result ≤ 8 }
    {
        self.code.data_width() / 8
    }

    // Complements one cell of the raw word at a place, check cells included. This unit's log takes no note of it.
    pub fn inject(&mut self, place: u16, cell: u8) -> Result<(), Fault>
        ensures answer { result ≡ (injected C.Code.code D.Card.model (state_of D.Card.state self.old) place cell).answer }
        ensures after { state_of D.Card.state self.new ≡ (injected C.Code.code D.Card.model (state_of D.Card.state self.old) place cell).state }
    {
        check_place(place, self.count())?;
        if cell >= self.code.raw_width() {
            return Err(Fault::arise(Refusal::Cell, place));
        }
        let raw = self.card.read(place).map_err(Fault::pass_up)?;
        self.card.write(place, raw.flip(cell))
    }
}

impl<C: Code, D: Card> Unit<C, D> {
    // The log word: kind, counter and syndrome of the latest error, then the partial and the check bits last taken.
    pub fn log(&self) -> u32
        ensures told { result ≡ log_word C.Code.code (state_of D.Card.state self.now).log }
        ensures kept { LogKept (state_of D.Card.state self.now).log.counter (state_of D.Card.state self.now).log.kind }
    {
        log_word(&self.code, &self.log)
    }

    // The first error since the log was new or cleared.
    pub fn first(&self) -> Option<FirstError>
        ensures { result ≡ (state_of D.Card.state self.now).log.first }
    {
        self.log.first()
    }

    // The card below, to look at: a unit there has a log of its own.
    pub fn below(&self) -> &D
        ensures { result.now ≡ self.now.card }
    {
        &self.card
    }

    // The log becomes a new one.
    pub fn clear(&mut self)
        ensures { state_of D.Card.state self.new ≡ record { log = new_log; card = D.Card.state self.old.card } }
    {
        self.log = Log::new();
    }
}

impl<C: Code, D: Card> Card for Unit<C, D> {
    ghost model = { unit_card C.Code.code D.Card.model };

    ghost state = { state_of D.Card.state };

    ghost laws = { unit_laws C.Code.code D.Card.model C.Code.lawful D.Card.laws };

    fn width(&self) -> u8 {
        self.code.data_width()
    }

    fn count(&self) -> u32 {
        places(&self.code, &self.card)
    }

    fn read(&mut self, place: u16) -> Result<Word, Fault> {
        read_over(&self.code, &mut self.card, &mut self.log, place)
    }

    fn write(&mut self, place: u16, word: Word) -> Result<(), Fault> {
        write_over(&self.code, &mut self.card, place, word)
    }
}
