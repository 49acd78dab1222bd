// A 64-bit unit over a buffer of a caller in C: nine bytes a word, the data lowest byte first, then the check bits.
// Each call puts a unit with a new log over the buffer; what the log shows of a reading is handed out with the word.
ghost use Rattle.std.specs.Prelude.{◌≡◌};
ghost use Rattle.card.specs.Cards.{read_answer, read_state, write_answer, write_state};
ghost use Rattle.codes.specs.Tables.{code64};
ghost use Rattle.error_log.specs.Logs.{log_word};
ghost use Rattle.capi.specs.Boards.{board, over, read_status, read_data, write_status};

use card::ByteCard;
use codes::Code64;
use error_log::Log;
use parts::{log_word, read_over, write_over};
use word::{Fault, Word};

// Stores a word with its check bits and answers 0, or leaves the buffer as it is and answers the refusal's number.
#[unsafe(no_mangle)]
pub extern "C" fn edc_write64(bytes: &mut [u8], place: u16, data: u64) -> u8
    ensures answer { result ≡ write_status (write_answer board (over bytes.entry) place «data») }
    ensures after { bytes.new ≡ (write_state board (over bytes.entry) place «data»).card.bytes }
{
    let mut card = ByteCard::new(72, bytes);
    match write_over(&Code64, &mut card, place, Word::from(data)) {
        Ok(()) => 0,
        Err(fault) => u8::from(fault.refusal),
    }
}

// Reads a word, put right, and answers 0, or leaves the data as they are and answers the refusal's number. The buffer stays as it is.
// The log word is that of a new log after this reading.
#[unsafe(no_mangle)]
pub extern "C" fn edc_read64(bytes: &mut [u8], place: u16, data: &mut u64, log: &mut u32) -> u8
    ensures answer { result ≡ read_status (read_answer board (over bytes.entry) place) }
    ensures given { «data».new ≡ read_data «data».old (read_answer board (over bytes.entry) place) }
    ensures logged { log.new ≡ log_word code64 (read_state board (over bytes.entry) place).log }
    ensures after { bytes.new ≡ bytes.old }
{
    let answer = read_board(bytes, place, log);
    match answer {
        Ok(word) => {
            *data = word.low;
            0
        }
        Err(fault) => u8::from(fault.refusal),
    }
}

// The reading, with its log word.
fn read_board(bytes: &mut [u8], place: u16, log: &mut u32) -> Result<Word, Fault>
    ensures answer { result ≡ read_answer board (over bytes.entry) place }
    ensures logged { log.new ≡ log_word code64 (read_state board (over bytes.entry) place).log }
    ensures after { bytes.new ≡ bytes.old }
{
    let mut card = ByteCard::new(72, bytes);
    let mut taken = Log::new();
    let answer = read_over(&Code64, &mut card, &mut taken, place);
    *log = log_word(&Code64, &taken);
    answer
}
