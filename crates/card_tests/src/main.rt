// Prints what cards answer: a read word in hexadecimal after `=`, a granted write as `ok`, a refusal after `!` with number, place, depth and way.
#![tactic(auto)]

mod worn;

ghost use Rattle.std.specs.Prelude.{◌≡◌, [], ◌∷◌, None};

use card::{ByteCard, Card};
use layers::{PairCard, ParityCard, Sense};
use std::{fmt, io};
use word::{Fault, Refusal, Side, Word};
use worn::WornCard;

// A refusal in numbers.
#[derive(Clone, Copy)]
struct FaultText(Fault);

impl fmt::Display for FaultText {
    fn fmt<W: fmt::Write>(&self, f: &mut fmt::Formatter<W>) -> fmt::Result {
        let fault = self.0;
        let number = u8::from(fault.refusal);
        write!(
            f,
            "! {number} {:04x} {:02x} {:04x}",
            fault.place, fault.depth, fault.way
        )
    }
}

// A reading of a place.
fn tell_read<C: Card>(rt: &impl Print, card: &mut C, place: u16) -> io::Result<()> {
    match card.read(place) {
        Ok(word) => println!(rt; "= {:018x}", u128::from(word)),
        Err(fault) => println!(rt; "{}", FaultText(fault)),
    }
}

// A word written to a place.
fn tell_write<C: Card>(rt: &impl Print, card: &mut C, place: u16, word: Word) -> io::Result<()> {
    match card.write(place, word) {
        Ok(()) => println!(rt; "ok"),
        Err(fault) => println!(rt; "{}", FaultText(fault)),
    }
}

// How wide the words of a card are, and how many it has.
fn tell_size<C: Card>(rt: &impl Print, card: &C) -> io::Result<()> {
    println!(rt; "width {} count {}", card.width(), card.count())
}

// The bytes of a buffer.
fn tell_bytes(rt: &impl Print, bytes: &[u8]) -> io::Result<()> {
    print!(rt; "bytes")?;
    for byte in bytes {
        print!(rt; " {byte:02x}")?;
    }
    println!(rt; "")
}

// Nine bytes a word, what is left over uncounted, and never more than 65,536 words.
fn buffers(rt: &(impl Print + Alloc)) -> anyhow::Result<()> {
    println!(rt; "buffers of 0, 8, 9, 17 and 18 bytes, and of 590,000")?;
    for length in [0, 8, 9, 17, 18, 590_000] {
        let mut bytes = vec![in rt.alloc(); 0u8; length]?;
        tell_size(rt, &ByteCard::new(72, bytes.as_mut_slice()))?;
    }
    println!(rt; "widths 0, 1, 72 and 73")?;
    for width in [0, 1, 72, 73] {
        let mut bytes = [0u8; 18];
        tell_size(rt, &ByteCard::new(width, &mut bytes))?;
    }
    Ok(())
}

// Two words of 20 cells in 20 bytes of aa.
fn layout(rt: &impl Print) -> io::Result<()> {
    println!(rt; "20 bytes of aa as a card of width 20")?;
    let mut bytes = [0xaau8; 20];
    let mut card = ByteCard::new(20, &mut bytes);
    tell_read(rt, &mut card, 1)?;
    tell_write(rt, &mut card, 1, Word::from(0x54321))?;
    tell_read(rt, &mut card, 1)?;
    tell_write(rt, &mut card, 1, Word::from(0x10_0000))?;
    tell_write(rt, &mut card, 2, Word::ZERO)?;
    tell_read(rt, &mut card, 2)?;
    tell_bytes(rt, &bytes)
}

// A card that holds a byte at place 0, or is faulty there too.
fn holding(byte: Option<u8>) -> WornCard
    ensures { result.bytes ≡ byte ∷ None ∷ None ∷ None ∷ [] }
{
    WornCard {
        bytes: [byte, None, None, None],
    }
}

// A pair whose low card is a pair: the bytes of the three cards, lowest first, or none where one is faulty.
fn nested(rt: &impl Print, bytes: [Option<u8>; 3]) -> io::Result<()> {
    let [low, middle, high] = bytes.map(holding);
    let low = PairCard { low, high: middle };
    tell_read(rt, &mut PairCard { low, high }, 0)
}

// The way of a fault from each of three cards.
fn paths(rt: &impl Print) -> io::Result<()> {
    println!(rt; "a pair of a pair and a card: faulty below, in the middle, above, nowhere")?;
    nested(rt, [None, None, None])?;
    nested(rt, [Some(0x12), None, None])?;
    nested(rt, [Some(0x12), Some(0x34), None])?;
    nested(rt, [Some(0x12), Some(0x34), Some(0x56)])
}

// Three pairs deep, by their high sides.
fn deep(rt: &impl Print) -> io::Result<()> {
    println!(rt;
        "a pair in the high card of a pair in the high card of a pair, faulty at the top"
    )?;
    let [first, second, third, top] = [Some(1), Some(2), Some(3), None].map(holding);
    let inner = PairCard {
        low: third,
        high: top,
    };
    let middle = PairCard {
        low: second,
        high: inner,
    };
    let mut card = PairCard {
        low: first,
        high: middle,
    };
    tell_size(rt, &card)?;
    tell_read(rt, &mut card, 0)?;
    tell_write(rt, &mut card, 0, Word::from(0x0403_0201))?;
    tell_read(rt, &mut card, 0)?;
    tell_write(rt, &mut card, 0, Word::from(0x1_0000_0000))?;
    tell_write(rt, &mut card, 4, Word::from(0x1_0000_0000))?;
    tell_read(rt, &mut card, 4)
}

// Two buffers side by side, of widths that make 72 together and of widths that make 73.
fn side_by_side(rt: &impl Print) -> io::Result<()> {
    println!(rt; "two buffers of 18 and 27 bytes as a pair")?;
    let mut low = [0u8; 18];
    let mut high = [0u8; 27];
    tell_size(
        rt,
        &PairCard {
            low: ByteCard::new(37, &mut low),
            high: ByteCard::new(36, &mut high),
        },
    )?;
    let mut card = PairCard {
        low: ByteCard::new(36, &mut low),
        high: ByteCard::new(36, &mut high),
    };
    tell_size(rt, &card)?;
    tell_write(
        rt,
        &mut card,
        1,
        Word {
            low: 0xfedc_ba98_7654_3210,
            top: 0x5a,
        },
    )?;
    tell_read(rt, &mut card, 1)?;
    tell_read(rt, &mut card, 2)?;
    tell_bytes(rt, &low)?;
    tell_bytes(rt, &high)
}

// The parity bits of eight lanes make the ninth byte.
fn senses(rt: &impl Print) -> io::Result<()> {
    println!(rt; "parity over nine bytes, even and odd")?;
    for sense in [Sense::Even, Sense::Odd] {
        let mut bytes = [0u8; 9];
        let mut card = ParityCard::new(sense, ByteCard::new(72, &mut bytes));
        tell_size(rt, &card)?;
        tell_write(rt, &mut card, 0, Word::from(0x0100_0000_0000_0003))?;
        tell_read(rt, &mut card, 0)?;
        tell_bytes(rt, &bytes)?;
    }
    Ok(())
}

// Two lanes and their two bits in 18 cells.
fn two_lanes(rt: &impl Print) -> io::Result<()> {
    println!(rt; "odd parity over 18 cells, and over 20")?;
    let mut bytes = [0u8; 18];
    tell_size(
        rt,
        &ParityCard::new(Sense::Odd, ByteCard::new(20, &mut bytes)),
    )?;
    let mut card = ParityCard::new(Sense::Odd, ByteCard::new(18, &mut bytes));
    tell_size(rt, &card)?;
    tell_read(rt, &mut card, 1)?;
    tell_write(rt, &mut card, 1, Word::from(0x1_0000))?;
    tell_write(rt, &mut card, 1, Word::from(0x0103))?;
    tell_read(rt, &mut card, 1)?;
    tell_bytes(rt, &bytes)?;
    bytes[10] = 3;
    let mut card = ParityCard::new(Sense::Odd, ByteCard::new(18, &mut bytes));
    tell_read(rt, &mut card, 1)
}

// A fault from below a parity layer, and one that it finds itself, each below one pair more.
fn parity_paths(rt: &impl Print) -> io::Result<()> {
    println!(rt;
        "parity over a pair with a faulty low card, and a pair with a wrong parity in its high card"
    )?;
    let mut bit = [0u8; 9];
    let raw = PairCard {
        low: holding(None),
        high: ByteCard::new(1, &mut bit),
    };
    let mut card = ParityCard::new(Sense::Even, raw);
    tell_size(rt, &card)?;
    tell_read(rt, &mut card, 0)?;
    let mut bytes = [1, 0, 0, 0, 0, 0, 0, 0, 0];
    let mut card = PairCard {
        low: holding(Some(5)),
        high: ParityCard::new(Sense::Even, ByteCard::new(9, &mut bytes)),
    };
    tell_size(rt, &card)?;
    tell_read(rt, &mut card, 0)
}

// The depth stops at 255, and the way keeps its last sixteen digits.
fn far_up(rt: &impl Print) -> io::Result<()> {
    println!(rt;
        "a fault above 300 layers, above 17 high sides, and above a high side with 15 and with 16 low ones"
    )?;
    let fault = Fault::arise(Refusal::Two, 5);
    let once = fault.pass_up_from(Side::High);
    for risen in [
        fault.pass_up_through(&[None; 300]),
        fault.pass_up_through(&[Some(Side::High); 17]),
        once.pass_up_through(&[Some(Side::Low); 15]),
        once.pass_up_through(&[Some(Side::Low); 16]),
    ] {
        println!(rt; "{}", FaultText(risen))?;
    }
    Ok(())
}

fn main(rt: HostRuntime) -> anyhow::Result<()> {
    buffers(&rt)?;
    layout(&rt)?;
    paths(&rt)?;
    deep(&rt)?;
    side_by_side(&rt)?;
    senses(&rt)?;
    two_lanes(&rt)?;
    parity_paths(&rt)?;
    far_up(&rt)?;
    Ok(())
}
