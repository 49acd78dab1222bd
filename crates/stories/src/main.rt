// Stories of calls on several boards, and scripts at their edges. Beside each line stands the answer that the rules make of it, worked out by hand;
// the program makes the call and compares.
#![tactic(auto)]

mod boards;
mod edges;

use boards::{CASCADE, HALVES, HARD_ORDERS, NARROW, NESTED, Step, Story};
use card::{BuiltinCard, ByteCard, Card};
use code::Code;
use codes::{Cascaded64, Code16, Code32, Code64};
use edges::tell_edges;
use layers::{PairCard, ParityCard, Sense};
use script::{bring_up, run};
use std::io;
use unit::{Call, Unit};
use word::Word;

// Makes one step and prints it; true where the answer is the one expected.
fn tell_step<C: Code, D: Card>(
    rt: &impl Print,
    unit: &mut Unit<C, D>,
    step: &Step,
) -> io::Result<bool> {
    let mut out = [0u8; 32];
    let report = run(unit, step.line.as_bytes(), &mut out);
    let same = &out[..report.written] == step.expected.as_bytes();
    let shown = if same {
        step.expected.trim_end()
    } else {
        "NOT AS EXPECTED"
    };
    println!(rt; "{}: {shown}  ({})", step.line.trim_end(), step.why)?;
    Ok(same)
}

// A story, step by step.
fn tell<C: Code, D: Card>(rt: &impl Print, unit: &mut Unit<C, D>, story: &Story) -> io::Result<()> {
    println!(rt; "{}", story.title)?;
    let mut wrong = 0u32;
    for step in story.steps {
        let same = tell_step(rt, unit, step)?;
        wrong = wrong.saturating_add(u32::from(!same));
    }
    println!(rt; "not as expected: {wrong}")
}

// Two byte cards of 18 bytes with a parity layer each, side by side below a cascaded unit.
fn tell_halves(rt: &impl Print) -> io::Result<()> {
    let mut bytes = [0u8; 36];
    let (low_bytes, high_bytes) = bytes.split_at_mut(18);
    let low = ParityCard::new(Sense::Even, ByteCard::new(45, low_bytes));
    let high = ParityCard::new(Sense::Odd, ByteCard::new(36, high_bytes));
    let mut halves = Unit::new(Cascaded64, PairCard { low, high });
    tell(rt, &mut halves, &HALVES)
}

// A 16-bit unit over a pair whose low card is a 16-bit unit.
type Nested = Unit<Code16, PairCard<Unit<Code16, BuiltinCard>, BuiltinCard>>;

// Such a unit, new.
fn nested() -> Nested {
    let low = Unit::new(Code16, BuiltinCard::new(22));
    let high = BuiltinCard::new(6);
    Unit::new(Code16, PairCard { low, high })
}

// Makes a call, and prints the log words of the unit and of the unit that is the pair's low card.
fn tell_both(rt: &impl Print, unit: &mut Nested, what: &str, call: Call) -> io::Result<()> {
    let _ = unit.make(call);
    let upper = unit.log();
    let lower = unit.below().low.log();
    println!(rt; "{what}: upper log {upper:08x}, lower log {lower:08x}")
}

// Who logs what: the lower unit takes a raw word for each reading that reaches it, and meets no error, since it stores afresh what is flipped above it.
fn tell_logs(rt: &impl Print) -> io::Result<()> {
    println!(rt; "who logs what: the check bits of 1 are 38, those of 0 are 00")?;
    let mut unit = nested();
    let one = Word::from(1);
    for (what, call) in [
        ("write 1", Call::Write(0, one)),
        ("inject cell 0", Call::Inject(0, 0)),
        ("read", Call::Read(0)),
        ("scrub", Call::Scrub(0)),
        ("merge, both lanes taken", Call::Merge(0, Word::ZERO, 0)),
        ("merge, lane 1 kept", Call::Merge(0, one, 2)),
        ("read", Call::Read(0)),
    ] {
        tell_both(rt, &mut unit, what, call)?;
    }
    Ok(())
}

fn main(rt: HostRuntime) -> io::Result<()> {
    tell(&rt, &mut bring_up(), &HARD_ORDERS)?;
    let mut bytes = [0u8; 30];
    let mut narrow = Unit::new(Code32, ByteCard::new(39, &mut bytes));
    tell(&rt, &mut narrow, &NARROW)?;
    let low = ParityCard::new(Sense::Odd, BuiltinCard::new(45));
    let high = Unit::new(Code32, BuiltinCard::new(39));
    let mut cascade = Unit::new(Cascaded64, PairCard { low, high });
    tell(&rt, &mut cascade, &CASCADE)?;
    tell_halves(&rt)?;
    tell(&rt, &mut nested(), &NESTED)?;
    tell_logs(&rt)?;
    tell_edges(&rt)
}
