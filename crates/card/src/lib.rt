// Cards: memories that are reached by four calls, and by nothing else.
#![tactic(auto)]

mod buffers;
mod builtin;
mod byte;
mod cards;
mod widths;

pub use buffers::Buffer;
pub use builtin::BuiltinCard;
pub use byte::{ByteCard, write_to_buffer};
pub use cards::Card;
