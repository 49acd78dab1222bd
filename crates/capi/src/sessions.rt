// A session for callers in C: a script run on a fresh 64-bit unit over the built-in card.
ghost use Rattle.std.specs.Prelude.{◌≡◌, if◌then◌else◌};
ghost use Rattle.capi.specs.Sessions.{Told};

use script::run_session;
use word::Refusal;

// Runs a script on a fresh unit and writes the answers into the output. Answers 0, or 9 where the script is longer than 4,096 bytes or the run
// stopped for want of room.
#[unsafe(no_mangle)]
pub extern "C" fn edc_session(
    script: &[u8],
    out: &mut [u8],
    lines: &mut usize,
    written: &mut usize,
) -> u8
    ensures { Told script.now out.old out.new lines.new written.new result }
{
    match run_session(script, out) {
        Ok(report) => {
            *lines = report.lines;
            *written = report.written;
            status(report.stopped)
        }
        Err(refusal) => {
            *lines = 0;
            *written = 0;
            u8::from(refusal)
        }
    }
}

// 9 for a run that stopped.
fn status(stopped: bool) -> u8
    ensures { result ≡ (if stopped then 9 else 0) }
{
    if stopped { u8::from(Refusal::Space) } else { 0 }
}
