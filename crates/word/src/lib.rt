// Words, their lanes, and the faults with which a call is refused.
#![tactic(auto)]

mod checks;
mod faults;
mod lanes;
mod refusals;
mod words;

pub use checks::{check_place, check_width};
pub use faults::{Fault, Side};
pub use lanes::{join_lanes, lanes_of};
pub use refusals::Refusal;
pub use words::Word;
