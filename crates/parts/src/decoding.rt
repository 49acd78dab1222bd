// From raw words to data and back.
ghost use Rattle.std.specs.Prelude.{◌≡◌, ◌+◌, ◌^◌, ◌<◌};
ghost use Rattle.word.specs.Words.{value, of_value};
ghost use Rattle.code.specs.Codes.{generated, codeword};
ghost use Rattle.card.specs.Cards.{holds, shown};
ghost use Rattle.parts.specs.Units.{cut, unit_entry, logged};

use code::Code;
use error_log::{Log, RawWord};
use word::{Fault, Word};

// The check bits of some data, as a word.
fn check_word<C: Code>(code: &C, data: u64) -> Word
    ensures { result ≡ record { low = generated C.Code.code «data»; top = 0 } }
{
    Word::from(code.generate(data) as u64)
}

// The raw word of some data with its check bits.
pub(crate) fn lay<C: Code>(code: &C, data: u64) -> Word
    requires { «data» < 2 ^ C.Code.code.n }
    ensures { result ≡ of_value (codeword C.Code.code «data») }
{
    Word::join(Word::from(data), check_word(code, data), code.data_width())
}

// A raw word cut into its data and its check bits.
fn cut_raw<C: Code>(code: &C, raw: Word) -> RawWord
    requires { value raw < 2 ^ (C.Code.code.n + C.Code.code.k) }
    ensures { result ≡ cut C.Code.code (value raw) }
{
    let (data, check) = raw.split(code.data_width());
    RawWord {
        data: data.low,
        check: (check.low & 0xff) as u8,
    }
}

// Takes a raw word for a reading: records it, sound or not, and decodes it.
pub(crate) fn take<C: Code>(code: &C, log: &mut Log, place: u16, raw: Word) -> Result<Word, Fault>
    requires { value raw < 2 ^ (C.Code.code.n + C.Code.code.k) }
    ensures answer { result ≡ shown (unit_entry C.Code.code place (holds (value raw))) }
    ensures after { log.new.state ≡ logged C.Code.code place (holds (value raw)) log.old.state }
{
    let parts = cut_raw(code, raw);
    let syndrome = code.syndrome_of(parts.data, parts.check);
    // A clean word needs no decoding: without this way of its own, reading it takes four tenths longer.
    if syndrome == 0 {
        log.note(place, parts, syndrome, false);
        return Ok(Word::from(parts.data));
    }
    let decoded = code.correct(parts.data, syndrome);
    log.note(place, parts, syndrome, decoded.is_err());
    let data = decoded.map_err(|refusal| Fault::arise(refusal, place))?;
    Ok(Word::from(data))
}
