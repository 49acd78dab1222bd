// The unit: check bits over any code and any card, and a log of what its readings met.
#![tactic(auto)]

mod calls;
mod units;

pub use calls::{Answer, Call, Reply};
pub use units::Unit;
