// What a code is: check bits for a data word, what a syndrome says of a raw word, and what follows from the laws.
#![tactic(auto)]

mod codes;
mod decoding;
mod promises;
mod syndromes;

pub use codes::Code;
pub use promises::{clean_syndrome, correctable, detectable};
pub use syndromes::Located;
