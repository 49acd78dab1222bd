// The words of the promise over runs, worked out from calls and their answers alone, and an audit of recorded runs by them.
#![tactic(auto)]

mod auditing;
mod owing;
mod shapes;
mod watchers;
mod watching;

pub use auditing::{Findings, audit};
pub use owing::{Due, Verdict, judge};
pub use shapes::Shape;
pub use watchers::{Watcher, place_named};
pub use watching::Watch;
