// The four codes: for 16, 32 and 64 data bits, and the last in two slices.
#![tactic(auto)]

mod cascaded;
mod code16;
mod code32;
mod code64;
mod shares;
mod worked;

pub use cascaded::{Cascaded64, cascade, lower_slice, slice_width, upper_slice};
pub use code16::Code16;
pub use code32::Code32;
pub use code64::Code64;
pub use worked::worked_values;
