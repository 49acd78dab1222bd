// The lines of a script, and the calls that they ask for.
#![tactic(auto)]

mod commands;
mod hex;
mod parsing;

pub use commands::{Command, Field};
pub use parsing::parse;
