// The promise over runs at boards that exist: its premises can be met.
ghost use Rattle.std.specs.Prelude.{◌≡◌, min, ◌++◌, length, take, drop};
ghost use Rattle.codes.specs.Tables.{code32, code64};
ghost use Rattle.codes.specs.Cascade.{cascaded64};
ghost use Rattle.card.specs.Builtin.{builtin_card, blank};
ghost use Rattle.card.specs.Bytes.{byte_card};
ghost use Rattle.layers.specs.Pairs.{pair_card};
ghost use Rattle.layers.specs.Parities.{parity_card};
ghost use Rattle.error_log.specs.Logs.{new_log};
ghost use Rattle.parts.specs.Units.{unit_card};
ghost use Rattle.runs.specs.Runs.{new_unit, answers as answers_to, Promised};

use crate::running::run_calls;
use card::{BuiltinCard, ByteCard};
use codes::{Cascaded64, Code32, Code64};
use layers::{PairCard, ParityCard, Sense};
use unit::{Answer, Call, Unit};

// Makes calls on a new 64-bit unit over the built-in card, and answers how many.
pub fn run_on_builtin(calls: &[Call], answers: &mut [Answer]) -> usize
    ensures made { result ≡ min (length calls.now) (length answers.old) }
    ensures told { answers.new ≡ answers_to code64 builtin_card (new_unit code64 builtin_card (blank 72)) (take result calls.now) ++ drop result answers.old }
    ensures promised { Promised code64 builtin_card (take result calls.now) (take result answers.new) }
{
    let ran = run_calls(Code64, BuiltinCard::new(72), calls, answers);
    ran.made
}

// The same at a 32-bit unit over a byte card. It is no call for others: what the buffer holds afterwards cannot be told under a unit today.
fn run_on_bytes(bytes: &mut [u8], calls: &[Call], answers: &mut [Answer]) -> usize
    ensures made { result ≡ min (length calls.now) (length answers.old) }
    ensures promised { Promised code32 byte_card (take result calls.now) (take result answers.new) }
{
    let ran = run_calls(Code32, ByteCard::new(39, bytes), calls, answers);
    ran.made
}

// Makes calls on a new cascaded unit over a pair of a parity layer and a 32-bit unit, and answers how many.
pub fn run_on_pair(sense: Sense, calls: &[Call], answers: &mut [Answer]) -> usize
    ensures made { result ≡ min (length calls.now) (length answers.old) }
    ensures told { answers.new ≡ answers_to cascaded64 (pair_card (parity_card builtin_card) (unit_card code32 builtin_card)) (new_unit cascaded64 (pair_card (parity_card builtin_card) (unit_card code32 builtin_card)) (record { low = record { sense = sense; card = blank 45 }; high = record { log = new_log; card = blank 39 } })) (take result calls.now) ++ drop result answers.old }
    ensures promised { Promised cascaded64 (pair_card (parity_card builtin_card) (unit_card code32 builtin_card)) (take result calls.now) (take result answers.new) }
{
    let low = ParityCard::new(sense, BuiltinCard::new(45));
    let high = Unit::new(Code32, BuiltinCard::new(39));
    let ran = run_calls(Cascaded64, PairCard { low, high }, calls, answers);
    ran.made
}
