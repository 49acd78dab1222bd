// What a unit does with a code, a card and a log: it lays words out, takes them back, and merges lanes.
#![tactic(auto)]

mod decoding;
mod merging;
mod parts;

pub use merging::merge_words;
pub use parts::{log_word, places, read_over, write_over};
