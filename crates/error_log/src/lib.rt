// The log of a unit: what its readings met.
#![tactic(auto)]

mod logs;
mod records;

pub use logs::Log;
pub use records::{FirstError, Kind, RawWord};
