// Runs the script on standard input on a fresh 64-bit unit, and writes the answers to standard output.
#![tactic(auto)]

use script::{OUTPUT, SCRIPT_MOST, run_session, space_line};
use std::io;
use std::io::{Read, Write};

fn main(rt: HostRuntime) -> io::Result<()> {
    let mut text = Vec::new(rt.alloc());
    // One byte past the longest script shows that it is too long.
    rt.stdin()
        .take(SCRIPT_MOST as u64 + 1)
        .read_to_end(&mut text)?;
    let mut out = vec![in rt.alloc(); 0u8; OUTPUT]?;
    let mut screen = rt.stdout();
    match run_session(text.as_slice(), out.as_mut_slice()) {
        Ok(report) => {
            screen.write_all(&out.as_slice()[..report.written])?;
            if report.stopped {
                screen.write_all(&space_line())?;
            }
        }
        Err(_) => screen.write_all(&space_line())?,
    }
    Ok(())
}
