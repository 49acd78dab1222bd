// The code of 64 data cells made by two slices of 32 cells each, one after the other.
ghost use Rattle.std.specs.Prelude.{◌≡◌, ◌%◌, ◌^◌, codes};
ghost use Rattle.std.proofs.Math.Path.{refl};
ghost use Rattle.codes.specs.Cascade.{SameAsSingle, cascaded64, lower_slice, sliced, upper_slice};
ghost use Rattle.codes.specs.Tables.{columns64};
ghost use Rattle.std.specs.Int.Count.{ones, ones_in};
ghost use Rattle.codes.specs.Lawful;
ghost use Rattle.codes.specs.Slices.{lower_below};

use crate::code64::Code64;
use crate::shares::{INVERTED, Shares64, add_columns};
use code::{Code, Located};

#[derive(Clone, Copy)]
pub struct Cascaded64;

impl Code for Cascaded64 {
    const DATA: u8 = 64;

    const CHECK: u8 = 8;

    ghost DATA = { 64 };

    ghost CHECK = { 8 };

    ghost code = { cascaded64 };

    ghost title = { codes "cascaded 64-bit code" };

    ghost widths = { (refl, refl) };

    ghost lawful = { unfold columns64 ones ones_in in Lawful.lawful cascaded64 refl (λ d. lower_below (d % 2 ^ 32)) };

    fn name(&self) -> &str {
        "cascaded 64-bit code"
    }

    fn generate(&self, data: u64) -> u8 {
        cascade(data)
    }

    fn locate(&self, syndrome: u8) -> Located {
        Code64.locate(syndrome)
    }

    fn partial(&self, data: u64) -> u8 {
        lower_slice((data % 0x1_0000_0000) as u32)
    }
}

// The check bits of a data word, from its two slices.
pub fn cascade(data: u64) -> u8
    ensures { result ≡ sliced «data» }
{
    let partial = lower_slice((data % 0x1_0000_0000) as u32);
    upper_slice(partial, (data / 0x1_0000_0000) as u32)
}

// The partial check bits of data cells 0 to 31, with the inversion of check bits 2 and 3.
#[tactic(auto, unfolding(crate::specs::Tables::columns64))]
pub fn lower_slice(low: u32) -> u8
    ensures { result ≡ lower_slice low }
{
    add_columns::<Shares64>(INVERTED, &[0, 1, 2, 3], low as u64)
}

// The check bits once those of data cells 32 to 63 are added to partial ones; nothing is inverted again.
#[tactic(auto, unfolding(crate::specs::Tables::columns64))]
pub fn upper_slice(partial: u8, high: u32) -> u8
    ensures { result ≡ upper_slice partial high }
{
    add_columns::<Shares64>(partial, &[4, 5, 6, 7], high as u64)
}

// How many data cells each slice of the cascaded code takes; the two make the check bits, syndromes, codewords and decoded words of
// the single code.
pub fn slice_width() -> u8
    ensures width { result ≡ 32 }
    ensures same { SameAsSingle }
{
    32
}
