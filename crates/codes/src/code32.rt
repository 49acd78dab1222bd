// The code of 32 data cells and 7 check cells.
ghost use Rattle.std.specs.Prelude.{◌≡◌, codes};
ghost use Rattle.std.proofs.Math.Path.{refl};
ghost use Rattle.code.specs.Codes.{told};
ghost use Rattle.codes.specs.Tables.{code32, columns32, columns64, table32};
ghost use Rattle.std.specs.Int.Count.{ones, ones_in};
ghost use Rattle.std.proofs.Math.Dec.{lit<};
ghost use Rattle.codes.specs.Lawful;

use crate::shares::{INVERTED, Shares64, add_columns};
use code::{Code, Located};

#[derive(Clone, Copy)]
pub struct Code32;

impl Code for Code32 {
    const DATA: u8 = 32;

    const CHECK: u8 = 7;

    ghost DATA = { 32 };

    ghost CHECK = { 7 };

    ghost code = { code32 };

    ghost title = { codes "32-bit code" };

    ghost widths = { (refl, refl) };

    ghost lawful = { unfold columns32 columns64 ones ones_in in Lawful.lawful code32 refl (λ d. lit< tt) };

    fn name(&self) -> &str {
        "32-bit code"
    }

    #[tactic(auto, unfolding(crate::specs::Tables::columns32, crate::specs::Tables::columns64))]
    fn generate(&self, data: u64) -> u8 {
        add_columns::<Shares64>(INVERTED, &[4, 1, 2, 7], data)
    }

    #[tactic(auto, unfolding(crate::specs::Tables::columns32, crate::specs::Tables::columns64))]
    fn locate(&self, syndrome: u8) -> Located {
        look_up(syndrome % 0x80)
    }

    fn partial(&self, _data: u64) -> u8 {
        0x00
    }
}

// What each syndrome says.
fn look_up(syndrome: u8) -> Located
    ensures { result ≡ told 7 table32 syndrome }
{
    match syndrome {
        0 => Located::Clean,
        0x4f => Located::Data(0),
        0x4a => Located::Data(1),
        0x52 => Located::Data(2),
        0x54 => Located::Data(3),
        0x57 => Located::Data(4),
        0x58 => Located::Data(5),
        0x5b => Located::Data(6),
        0x5d => Located::Data(7),
        0x23 => Located::Data(8),
        0x25 => Located::Data(9),
        0x26 => Located::Data(10),
        0x29 => Located::Data(11),
        0x2a => Located::Data(12),
        0x2c => Located::Data(13),
        0x31 => Located::Data(14),
        0x34 => Located::Data(15),
        0x0e => Located::Data(16),
        0x0b => Located::Data(17),
        0x13 => Located::Data(18),
        0x15 => Located::Data(19),
        0x16 => Located::Data(20),
        0x19 => Located::Data(21),
        0x1a => Located::Data(22),
        0x1c => Located::Data(23),
        0x62 => Located::Data(24),
        0x64 => Located::Data(25),
        0x67 => Located::Data(26),
        0x68 => Located::Data(27),
        0x6b => Located::Data(28),
        0x6d => Located::Data(29),
        0x70 => Located::Data(30),
        0x75 => Located::Data(31),
        0x01 => Located::Check(0),
        0x02 => Located::Check(1),
        0x04 => Located::Check(2),
        0x08 => Located::Check(3),
        0x10 => Located::Check(4),
        0x20 => Located::Check(5),
        0x40 => Located::Check(6),
        even if even.count_ones() % 2 == 0 => Located::Two,
        _ => Located::Many,
    }
}
