// What the program edcrun does with a script, all but reading it and showing what was written.
ghost use Rattle.std.specs.Prelude.{◌≡◌, ◌<◌, length, MatchResult};
ghost use Rattle.word.specs.Faults.{arisen};
ghost use Rattle.card.specs.Builtin.{builtin_of};
ghost use Rattle.unit.specs.States.{state_of};
ghost use Rattle.lines.specs.Texts.{fault_text};
ghost use Rattle.script.specs.Sessions.{fresh, Session};

use crate::running::{Report, run};
use card::{BuiltinCard, Card};
use codes::Code64;
use unit::Unit;
use word::{Refusal, Word};

// How long a script may be, in bytes.
pub const SCRIPT_MOST: usize = 4096;

// How many bytes of output a run may fill.
pub const OUTPUT: usize = 65536;

// A 64-bit unit over the built-in card, with zero stored at each place.
pub fn bring_up() -> Unit<Code64, BuiltinCard>
    ensures { state_of builtin_of result ≡ fresh }
{
    let mut unit = Unit::new(Code64, BuiltinCard::new(72));
    for place in 0..128u16 {
        let _ = unit.write(place, Word::ZERO);
    }
    unit
}

// Runs a script on a fresh unit, unless it is too long: then it is refused, and nothing is written.
pub fn run_session(script: &[u8], out: &mut [u8]) -> Result<Report, Refusal>
    ensures { MatchResult result (λ report. Session script.now out.old out.new report) (λ e. (e ≡ Refusal.Space) × (4096 < length script.now) × (out.new ≡ out.old)) }
{
    if script.len() > SCRIPT_MOST {
        return Err(Refusal::Space);
    }
    let mut unit = bring_up();
    Ok(run(&mut unit, script, out))
}

// The line that tells of a script that is too long, or of a run that stopped.
pub fn space_line() -> [u8; 17]
    ensures { result ≡ fault_text (arisen Refusal.Space 0) }
{
    *b"! 9 0000 00 0000\n"
}
