// Runs of calls on a unit, the promise over them, and stacks of layers.
#![tactic(auto)]

mod boards;
mod running;
mod stacks;

pub use boards::{run_on_builtin, run_on_pair};
pub use running::{Ran, run_calls};
pub use stacks::layer_kinds;
