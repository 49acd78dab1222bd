// Check bits by the equations that the first maker publishes for one chip and for a cascade of two, beside those that the codes generate.
ghost use Rattle.std.specs.Prelude.{◌≡◌, ℕ, ◌/◌, ◌%◌, ◌^◌, ◌<◌, ◌≤◌, length};
ghost use Rattle.code.specs.Codes.{generated};
ghost use Rattle.codes.specs.Tables.{code32, code64};
ghost use Rattle.decode_tables.specs.declared.equations.Equations.{Equations as Published};
ghost use Rattle.decode_tables.specs.Published.{parity_of, masked, single_bits, lower_bits, upper_bits, single_printed, lower_printed, upper_printed, lower_generated};

use code::Code;
use codes::{Code32, Code64, lower_slice};
use std::io;

// For each equation the data bits that it takes, as a mask.
#[derive(Clone, Copy)]
struct Equations {
    pa: u32,
    pb: u32,
    pc: u32,
    pd: u32,
    pe: u32,
    pf: u32,
    pg: u32,
    ph0: u32,
    ph1: u32,
    ph2: u32,
}

// The mask of some data bits.
fn mask(bits: &[u8; 16]) -> u32 {
    bits.iter().fold(0, |mask, bit| mask | 1 << (*bit % 32))
}

// The equations as they are printed.
fn published() -> Equations {
    Equations {
        pa: mask(&[0, 1, 2, 4, 6, 8, 10, 12, 16, 17, 18, 20, 22, 24, 26, 28]),
        pb: mask(&[0, 3, 4, 7, 9, 10, 13, 15, 16, 19, 20, 23, 25, 26, 29, 31]),
        pc: mask(&[0, 1, 5, 6, 7, 11, 12, 13, 16, 17, 21, 22, 23, 27, 28, 29]),
        pd: mask(&[2, 3, 4, 5, 6, 7, 14, 15, 18, 19, 20, 21, 22, 23, 30, 31]),
        pe: mask(&[8, 9, 10, 11, 12, 13, 14, 15, 24, 25, 26, 27, 28, 29, 30, 31]),
        pf: mask(&[0, 1, 2, 3, 4, 5, 6, 7, 24, 25, 26, 27, 28, 29, 30, 31]),
        pg: mask(&[8, 9, 10, 11, 12, 13, 14, 15, 16, 17, 18, 19, 20, 21, 22, 23]),
        ph0: mask(&[0, 4, 6, 7, 8, 9, 11, 14, 17, 18, 19, 21, 26, 28, 29, 31]),
        ph1: mask(&[1, 2, 3, 5, 8, 9, 11, 14, 17, 18, 19, 21, 24, 25, 27, 30]),
        ph2: mask(&[0, 4, 6, 7, 10, 12, 13, 15, 16, 20, 22, 23, 26, 28, 29, 31]),
    }
}

// The exclusive or of the masked bits.
fn parity(bits: u32, mask: u32) -> u8
    ensures { result ≡ parity_of bits mask }
{
    ((bits & mask).count_ones() % 2) as u8
}

// For each mask the exclusive or of the masked bits, the first the lowest.
pub(crate) fn check_bits(masks: &[u32], bits: u32) -> u8
    requires { length masks.now ≤ 8 }
    ensures whole { result ≡ masked masks.now bits }
    ensures below { result < 2 ^ length masks.now }
{
    match masks.split_first() {
        Some((mask, others)) => parity(bits, *mask) + 2 * check_bits(others, bits),
        None => 0,
    }
}

// Check bits 2 and 3, which a chip inverts that is alone or the lower of two.
const INVERTED: u8 = 0x0c;

// The check bits of a chip alone.
fn single_bits(by: Equations, bits: u32) -> u8
    ensures { result ≡ single_bits by bits }
{
    check_bits(&[by.ph0, by.pa, by.pb, by.pc, by.pd, by.pe, by.pf], bits) ^ INVERTED
}

// The partial check bits of the lower of two.
fn lower_bits(by: Equations, bits: u32) -> u8
    ensures { result ≡ lower_bits by bits }
{
    check_bits(
        &[by.ph1, by.pa, by.pb, by.pc, by.pd, by.pe, by.pf, by.pf],
        bits,
    ) ^ INVERTED
}

// The upper of two adds its own to the lower one's and inverts nothing.
fn upper_bits(by: Equations, partial: u8, bits: u32) -> u8
    ensures { result ≡ upper_bits by partial bits }
{
    check_bits(
        &[by.ph2, by.pa, by.pb, by.pc, by.pd, by.pe, by.pf, by.pg],
        bits,
    ) ^ partial
}

// The lower 32 bits of a word.
fn low_half(word: u64) -> u32
    ensures { result ≡ word % 0x1_0000_0000 }
{
    (word % 0x1_0000_0000) as u32
}

// The upper 32 bits of a word.
fn high_half(word: u64) -> u32
    ensures { result ≡ word / 0x1_0000_0000 }
{
    (word / 0x1_0000_0000) as u32
}

// The code identity that a chip is strapped to.
trait Identity {
    const TITLE: &'static str;

    ghost printed: { Published → ℕ → ℕ };

    ghost generated: { ℕ → ℕ };

    // The check bits of a word by the equations.
    fn by_equations(by: Equations, word: u64) -> u8
        ensures { result ≡ printed by word };

    // The check bits that the codes have in their place.
    fn generate(word: u64) -> u8
        ensures { result ≡ generated word };
}

// A chip alone, which takes the low half of a word.
struct Single;

impl Identity for Single {
    const TITLE: &'static str = "00, a single chip";

    ghost printed = { single_printed };

    ghost generated = { generated code32 };

    fn by_equations(by: Equations, word: u64) -> u8 {
        single_bits(by, low_half(word))
    }

    fn generate(word: u64) -> u8 {
        Code32.generate(word)
    }
}

// The lower of two, which takes the low half.
struct Lower;

impl Identity for Lower {
    const TITLE: &'static str = "10, the lower slice";

    ghost printed = { lower_printed };

    ghost generated = { lower_generated };

    fn by_equations(by: Equations, word: u64) -> u8 {
        lower_bits(by, low_half(word))
    }

    fn generate(word: u64) -> u8 {
        lower_slice(low_half(word))
    }
}

// The upper of two, which takes the high half and what the lower one made of the low half.
struct Upper;

impl Identity for Upper {
    const TITLE: &'static str = "11, the upper slice";

    ghost printed = { upper_printed };

    ghost generated = { generated code64 };

    fn by_equations(by: Equations, word: u64) -> u8 {
        upper_bits(by, lower_bits(by, low_half(word)), high_half(word))
    }

    fn generate(word: u64) -> u8 {
        Code64.generate(word)
    }
}

// The word after this one, each once in a very long round.
fn next_word(word: u64) -> u64 {
    let word = word ^ word << 13;
    let word = word ^ word >> 7;
    word ^ word << 17
}

// How many of some words have the same check bits by the equations and here; the others are named.
fn compare_identity<I: Identity>(rt: &impl Print, by: Equations) -> io::Result<()> {
    let mut agreed = 0u32;
    let mut word = 0x9e37_79b9_7f4a_7c15u64;
    for _ in 0..4096u32 {
        word = next_word(word);
        let printed = I::by_equations(by, word);
        let generated = I::generate(word);
        if printed == generated {
            agreed = agreed.saturating_add(1);
        } else {
            println!(rt;
                "{word:016x} has {printed:02x} by the equations, and here {generated:02x}"
            )?;
        }
    }
    let title = I::TITLE;
    println!(rt; "code identity {title}: {agreed} of 4096 words agree with the equations")
}

// The equations beside the codes, at each code identity.
pub fn compare_equations(rt: &impl Print) -> io::Result<()> {
    let by = published();
    compare_identity::<Single>(rt, by)?;
    compare_identity::<Lower>(rt, by)?;
    compare_identity::<Upper>(rt, by)
}
