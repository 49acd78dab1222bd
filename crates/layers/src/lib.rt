// Layers that are cards over cards: two side by side, and one with parity bits.
#![tactic(auto)]

mod pair;
mod parity;

pub use pair::PairCard;
pub use parity::{ParityCard, Sense};
