// The code of 64 data cells and 8 check cells.
ghost use Rattle.std.specs.Prelude.{◌≡◌, codes};
ghost use Rattle.std.proofs.Math.Path.{refl};
ghost use Rattle.code.specs.Codes.{told};
ghost use Rattle.codes.specs.Tables.{code64, table64};
ghost use Rattle.codes.specs.Marks.{Marks64, followed};
ghost use Rattle.codes.specs.Marked.{lawful64};

use crate::shares::{INVERTED, Shares64, add_columns};
use code::{Code, Located};
use word::Refusal;

#[derive(Clone, Copy)]
pub struct Code64;

impl Code for Code64 {
    const DATA: u8 = 64;

    const CHECK: u8 = 8;

    ghost DATA = { 64 };

    ghost CHECK = { 8 };

    ghost code = { code64 };

    ghost title = { codes "64-bit code" };

    ghost widths = { (refl, refl) };

    ghost lawful = { lawful64 };

    fn name(&self) -> &str {
        "64-bit code"
    }

    #[tactic(auto, unfolding(crate::specs::Tables::columns64))]
    fn generate(&self, data: u64) -> u8 {
        add_columns::<Shares64>(INVERTED, &[0, 1, 2, 3, 4, 5, 6, 7], data)
    }

    fn locate(&self, syndrome: u8) -> Located {
        look_up(syndrome)
    }

    fn partial(&self, _data: u64) -> u8 {
        0x00
    }

    fn correct(&self, data: u64, syndrome: u8) -> Result<u64, Refusal> {
        follow(data, marks()[syndrome as usize])
    }
}

// What each syndrome says.
fn look_up(syndrome: u8) -> Located
    ensures { result ≡ told 8 table64 syndrome }
{
    match syndrome {
        0 => Located::Clean,
        0xce => Located::Data(0),
        0xcb => Located::Data(1),
        0xd3 => Located::Data(2),
        0xd5 => Located::Data(3),
        0xd6 => Located::Data(4),
        0xd9 => Located::Data(5),
        0xda => Located::Data(6),
        0xdc => Located::Data(7),
        0x23 => Located::Data(8),
        0x25 => Located::Data(9),
        0x26 => Located::Data(10),
        0x29 => Located::Data(11),
        0x2a => Located::Data(12),
        0x2c => Located::Data(13),
        0x31 => Located::Data(14),
        0x34 => Located::Data(15),
        0x0e => Located::Data(16),
        0x0b => Located::Data(17),
        0x13 => Located::Data(18),
        0x15 => Located::Data(19),
        0x16 => Located::Data(20),
        0x19 => Located::Data(21),
        0x1a => Located::Data(22),
        0x1c => Located::Data(23),
        0xe3 => Located::Data(24),
        0xe5 => Located::Data(25),
        0xe6 => Located::Data(26),
        0xe9 => Located::Data(27),
        0xea => Located::Data(28),
        0xec => Located::Data(29),
        0xf1 => Located::Data(30),
        0xf4 => Located::Data(31),
        0x4f => Located::Data(32),
        0x4a => Located::Data(33),
        0x52 => Located::Data(34),
        0x54 => Located::Data(35),
        0x57 => Located::Data(36),
        0x58 => Located::Data(37),
        0x5b => Located::Data(38),
        0x5d => Located::Data(39),
        0xa2 => Located::Data(40),
        0xa4 => Located::Data(41),
        0xa7 => Located::Data(42),
        0xa8 => Located::Data(43),
        0xab => Located::Data(44),
        0xad => Located::Data(45),
        0xb0 => Located::Data(46),
        0xb5 => Located::Data(47),
        0x8f => Located::Data(48),
        0x8a => Located::Data(49),
        0x92 => Located::Data(50),
        0x94 => Located::Data(51),
        0x97 => Located::Data(52),
        0x98 => Located::Data(53),
        0x9b => Located::Data(54),
        0x9d => Located::Data(55),
        0x62 => Located::Data(56),
        0x64 => Located::Data(57),
        0x67 => Located::Data(58),
        0x68 => Located::Data(59),
        0x6b => Located::Data(60),
        0x6d => Located::Data(61),
        0x70 => Located::Data(62),
        0x75 => Located::Data(63),
        0x01 => Located::Check(0),
        0x02 => Located::Check(1),
        0x04 => Located::Check(2),
        0x08 => Located::Check(3),
        0x10 => Located::Check(4),
        0x20 => Located::Check(5),
        0x40 => Located::Check(6),
        0x80 => Located::Check(7),
        even if even.count_ones() % 2 == 0 => Located::Two,
        _ => Located::Many,
    }
}

// What each syndrome says, as one number: the cell of the raw word, or 72 for none, 73 for two and 74 for many.
static MARKS: [u8; 256] = *b"\
    \x48\x40\x41\x49\x42\x49\x49\x4a\x43\x49\x49\x11\x49\x4a\x10\x49\
    \x44\x49\x49\x12\x49\x13\x14\x49\x49\x15\x16\x49\x17\x49\x49\x4a\
    \x45\x49\x49\x08\x49\x09\x0a\x49\x49\x0b\x0c\x49\x0d\x49\x49\x4a\
    \x49\x0e\x4a\x49\x0f\x49\x49\x4a\x4a\x49\x49\x4a\x49\x4a\x4a\x49\
    \x46\x49\x49\x4a\x49\x4a\x4a\x49\x49\x4a\x21\x49\x4a\x49\x49\x20\
    \x49\x4a\x22\x49\x23\x49\x49\x24\x25\x49\x49\x26\x49\x27\x4a\x49\
    \x49\x4a\x38\x49\x39\x49\x49\x3a\x3b\x49\x49\x3c\x49\x3d\x4a\x49\
    \x3e\x49\x49\x4a\x49\x3f\x4a\x49\x49\x4a\x4a\x49\x4a\x49\x49\x4a\
    \x47\x49\x49\x4a\x49\x4a\x4a\x49\x49\x4a\x31\x49\x4a\x49\x49\x30\
    \x49\x4a\x32\x49\x33\x49\x49\x34\x35\x49\x49\x36\x49\x37\x4a\x49\
    \x49\x4a\x28\x49\x29\x49\x49\x2a\x2b\x49\x49\x2c\x49\x2d\x4a\x49\
    \x2e\x49\x49\x4a\x49\x2f\x4a\x49\x49\x4a\x4a\x49\x4a\x49\x49\x4a\
    \x49\x4a\x4a\x49\x4a\x49\x49\x4a\x4a\x49\x49\x01\x49\x4a\x00\x49\
    \x4a\x49\x49\x02\x49\x03\x04\x49\x49\x05\x06\x49\x07\x49\x49\x4a\
    \x4a\x49\x49\x18\x49\x19\x1a\x49\x49\x1b\x1c\x49\x1d\x49\x49\x4a\
    \x49\x1e\x4a\x49\x1f\x49\x49\x4a\x4a\x49\x49\x4a\x49\x4a\x4a\x49";

// The marks as the check knows them.
fn marks() -> &'static [u8; 256]
    ensures { Marks64 result.now }
{
    &MARKS
}

// The data with the marked cell put right, or a refusal.
fn follow(data: u64, mark: u8) -> Result<u64, Refusal>
    ensures { result ≡ followed «data» mark }
{
    if mark < 64 {
        Ok(data ^ (1u64 << mark))
    } else if mark < 73 {
        Ok(data)
    } else if mark == 73 {
        Err(Refusal::Two)
    } else {
        Err(Refusal::Many)
    }
}
