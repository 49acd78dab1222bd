// Prints histories of calls with the words of the promise beside each call. The words are worked out from the calls made and their answers alone.
#![tactic(auto)]

mod drawing;
mod tables;
mod telling;
mod texts;

use audit::{Shape, audit};
use card::{BuiltinCard, ByteCard};
use codes::{Cascaded64, Code32, Code64};
use layers::{PairCard, ParityCard, Sense};
use runs::run_on_builtin;
use std::io;
use tables::{HALVES, LONG_WORDS, SHORT_WORDS};
use telling::{tell_draws, tell_table};
use unit::{Answer, Call, Reply, Unit};

// A 64-bit unit with 128 places.
const WIDE: Shape = Shape {
    width: 64,
    checks: 8,
    places: 128,
};

// A 32-bit unit with three places.
const NARROW: Shape = Shape {
    width: 32,
    checks: 7,
    places: 3,
};

// What an audit of the first table with these answers finds.
fn tell_audit(rt: &impl Print, what: &str, answers: &[Answer]) -> io::Result<()> {
    let found = audit(WIDE, &LONG_WORDS, answers);
    println!(rt; "{what}: {} calls, {} differ", found.made, found.differing)
}

// The first table as a record, true and then with one false answer: the refused scrub is said to be granted. So the merge
// behind it seems to meet no upset cell, and the next two log words, 7 and 15, tell one error too many.
fn tell_records(rt: &impl Print) -> io::Result<()> {
    let mut answers = [Ok(Reply::Done); 66];
    let _ = run_on_builtin(&LONG_WORDS, &mut answers);
    tell_audit(rt, "a true record", &answers)?;
    answers[22] = Ok(Reply::Done);
    tell_audit(rt, "with a scrub said to be granted", &answers)
}

// A 64-bit unit over a new built-in card.
fn long_unit() -> Unit<Code64, BuiltinCard> {
    Unit::new(Code64, BuiltinCard::new(72))
}

// The first table and its records, and drawn calls.
fn tell_long_words(rt: &impl Print) -> io::Result<()> {
    println!(rt; "64-bit unit over the built-in card")?;
    tell_table(rt, &mut long_unit(), WIDE, &LONG_WORDS)?;
    tell_records(rt)?;
    tell_draws(rt, &mut long_unit(), WIDE, 64)
}

// The table of a unit over a buffer, and drawn calls on a new one.
fn tell_short_words(rt: &impl Print) -> io::Result<()> {
    println!(rt; "32-bit unit over a byte card of 30 bytes")?;
    let mut bytes = [0u8; 30];
    let mut unit = Unit::new(Code32, ByteCard::new(39, &mut bytes));
    tell_table(rt, &mut unit, NARROW, SHORT_WORDS)?;
    let mut bytes = [0u8; 30];
    let mut unit = Unit::new(Code32, ByteCard::new(39, &mut bytes));
    tell_draws(rt, &mut unit, NARROW, 32)
}

// A cascaded unit over a parity layer below and a 32-bit unit above, side by side.
fn halves() -> Unit<Cascaded64, PairCard<ParityCard<BuiltinCard>, Unit<Code32, BuiltinCard>>> {
    let low = ParityCard::new(Sense::Odd, BuiltinCard::new(45));
    let high = Unit::new(Code32, BuiltinCard::new(39));
    Unit::new(Cascaded64, PairCard { low, high })
}

// The table of a unit over a pair, and drawn calls on a new one.
fn tell_halves(rt: &impl Print) -> io::Result<()> {
    println!(rt; "cascaded 64-bit unit over a pair: a parity layer below, a 32-bit unit above")?;
    tell_table(rt, &mut halves(), WIDE, HALVES)?;
    tell_draws(rt, &mut halves(), WIDE, 128)
}

fn main(rt: HostRuntime) -> io::Result<()> {
    tell_long_words(&rt)?;
    tell_short_words(&rt)?;
    tell_halves(&rt)
}
