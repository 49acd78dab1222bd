// The code of 16 data cells and 6 check cells.
ghost use Rattle.std.specs.Prelude.{◌≡◌, codes};
ghost use Rattle.std.proofs.Math.Path.{refl};
ghost use Rattle.code.specs.Codes.{told};
ghost use Rattle.codes.specs.Tables.{code16, columns16, table16};
ghost use Rattle.std.specs.Int.Count.{ones, ones_in};
ghost use Rattle.std.proofs.Math.Dec.{lit<};
ghost use Rattle.codes.specs.Lawful;

use crate::shares::{Shares16, add_columns};
use code::{Code, Located};

// z: the check bits of no data.
const Z16: u8 = 0x00;

#[derive(Clone, Copy)]
pub struct Code16;

impl Code for Code16 {
    const DATA: u8 = 16;

    const CHECK: u8 = 6;

    ghost DATA = { 16 };

    ghost CHECK = { 6 };

    ghost code = { code16 };

    ghost title = { codes "16-bit code" };

    ghost widths = { (refl, refl) };

    ghost lawful = { unfold columns16 ones ones_in in Lawful.lawful code16 refl (λ d. lit< tt) };

    fn name(&self) -> &str {
        "16-bit code"
    }

    #[tactic(auto, unfolding(crate::specs::Tables::columns16))]
    fn generate(&self, data: u64) -> u8 {
        add_columns::<Shares16>(Z16, &[0, 1], data)
    }

    #[tactic(auto, unfolding(crate::specs::Tables::columns16))]
    fn locate(&self, syndrome: u8) -> Located {
        look_up(syndrome % 0x40)
    }

    fn partial(&self, _data: u64) -> u8 {
        0x00
    }
}

// What each syndrome says.
fn look_up(syndrome: u8) -> Located
    ensures { result ≡ told 6 table16 syndrome }
{
    match syndrome {
        0 => Located::Clean,
        0x38 => Located::Data(0),
        0x19 => Located::Data(1),
        0x1a => Located::Data(2),
        0x0b => Located::Data(3),
        0x1c => Located::Data(4),
        0x0d => Located::Data(5),
        0x0e => Located::Data(6),
        0x1f => Located::Data(7),
        0x2c => Located::Data(8),
        0x25 => Located::Data(9),
        0x26 => Located::Data(10),
        0x23 => Located::Data(11),
        0x34 => Located::Data(12),
        0x31 => Located::Data(13),
        0x32 => Located::Data(14),
        0x37 => Located::Data(15),
        0x01 => Located::Check(0),
        0x02 => Located::Check(1),
        0x04 => Located::Check(2),
        0x08 => Located::Check(3),
        0x10 => Located::Check(4),
        0x20 => Located::Check(5),
        even if even.count_ones() % 2 == 0 => Located::Two,
        _ => Located::Many,
    }
}
