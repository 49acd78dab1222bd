// Scripts: lines of text in, lines of text out, on a unit.
#![tactic(auto)]

mod printing;
mod running;
mod session;

pub use running::{LINE_MOST, Report, run};
pub use session::{OUTPUT, SCRIPT_MOST, bring_up, run_session, space_line};
