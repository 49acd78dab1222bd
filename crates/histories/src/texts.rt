// Calls, answers and the promise's words as text.
use audit::{Due, Verdict, Watch, Watcher, place_named};
use std::fmt;
use unit::{Answer, Call, Reply};
use word::{Fault, Word};

// A word as hexadecimal digits.
#[derive(Clone, Copy)]
pub struct WordText(pub Word);

impl fmt::Display for WordText {
    fn fmt<W: fmt::Write>(&self, f: &mut fmt::Formatter<W>) -> fmt::Result {
        write!(f, "{:016x}", u128::from(self.0))
    }
}

// A call with its arguments.
#[derive(Clone, Copy)]
pub struct CallText(pub Call);

impl fmt::Display for CallText {
    fn fmt<W: fmt::Write>(&self, f: &mut fmt::Formatter<W>) -> fmt::Result {
        match self.0 {
            Call::Read(place) => write!(f, "read {place}"),
            Call::Write(place, word) => write!(f, "write {place} {}", WordText(word)),
            Call::Merge(place, word, enables) => {
                write!(f, "merge {place} {} keeping {enables:02x}", WordText(word))
            }
            Call::Scrub(place) => write!(f, "scrub {place}"),
            Call::Inject(place, cell) => write!(f, "inject {place} cell {cell}"),
            Call::Log => f.write_str("log"),
            Call::First => f.write_str("first"),
            Call::Clear => f.write_str("clear"),
        }
    }
}

// A refusal with its place; depth and way follow if it came up from below.
#[derive(Clone, Copy)]
pub struct FaultText(pub Fault);

impl fmt::Display for FaultText {
    fn fmt<W: fmt::Write>(&self, f: &mut fmt::Formatter<W>) -> fmt::Result {
        let fault = self.0;
        write!(f, "{} at {}", fault.refusal, fault.place)?;
        if fault.depth == 0 && fault.way == 0 {
            Ok(())
        } else {
            write!(f, " depth {} way {:04x}", fault.depth, fault.way)
        }
    }
}

// An answer with what it tells.
#[derive(Clone, Copy)]
pub struct AnswerText(pub Answer);

impl fmt::Display for AnswerText {
    fn fmt<W: fmt::Write>(&self, f: &mut fmt::Formatter<W>) -> fmt::Result {
        match self.0 {
            Ok(Reply::Done) => f.write_str("done"),
            Ok(Reply::Gave(word)) => write!(f, "{}", WordText(word)),
            Ok(Reply::Merged(Some(word))) => write!(f, "over {}", WordText(word)),
            Ok(Reply::Merged(None)) => f.write_str("over no word"),
            Ok(Reply::LogWord(word)) => {
                let counter = (word >> 24) % 16;
                write!(f, "log word {word:08x} (counter {counter})")
            }
            Ok(Reply::FirstWas(Some(first))) => write!(
                f,
                "at {} data {:x} check {:02x}",
                first.place, first.raw.data, first.raw.check
            ),
            Ok(Reply::FirstWas(None)) => f.write_str("no error"),
            Err(fault) => write!(f, "{}", FaultText(fault)),
        }
    }
}

// What is owed to a call, if anything is.
#[derive(Clone, Copy)]
pub struct DueText(pub Option<Due>);

impl fmt::Display for DueText {
    fn fmt<W: fmt::Write>(&self, f: &mut fmt::Formatter<W>) -> fmt::Result {
        match self.0 {
            None => f.write_str("nothing"),
            Some(Due::This(answer)) => write!(f, "{}", AnswerText(answer)),
            Some(Due::LogWord(Some(counter))) => write!(f, "counter {counter}"),
            Some(Due::LogWord(None)) => f.write_str("a log word"),
        }
    }
}

// A verdict, as it follows an answer.
#[derive(Clone, Copy)]
pub struct VerdictText(pub Verdict);

impl fmt::Display for VerdictText {
    fn fmt<W: fmt::Write>(&self, f: &mut fmt::Formatter<W>) -> fmt::Result {
        f.write_str(match self.0 {
            Verdict::Free => "",
            Verdict::Agrees => "; agrees",
            Verdict::Differs => "; DIFFERS",
        })
    }
}

// The cells of a place that are upset, and whether it is in hand.
#[derive(Clone, Copy)]
pub struct WatchText(pub Watch);

impl fmt::Display for WatchText {
    fn fmt<W: fmt::Write>(&self, f: &mut fmt::Formatter<W>) -> fmt::Result {
        let hand = if self.0.in_hand {
            "in hand"
        } else {
            "not in hand"
        };
        write!(f, "{hand}, upset")?;
        if !self.0.upset.contains(&true) {
            return f.write_str(" none");
        }
        for (cell, _) in self.0.upset.iter().enumerate().filter(|(_, upset)| **upset) {
            write!(f, " {cell}")?;
        }
        Ok(())
    }
}

// What is known of the place of a call, or of the log, just before the call.
#[derive(Clone, Copy)]
pub struct KnownText(pub Watcher, pub Call);

impl fmt::Display for KnownText {
    fn fmt<W: fmt::Write>(&self, f: &mut fmt::Formatter<W>) -> fmt::Result {
        let watcher = self.0;
        let Some(place) = place_named(self.1) else {
            return match watcher.errors_met {
                Some(errors) => write!(f, "all readings in hand, errors met {errors}"),
                None => f.write_str("a reading was not in hand"),
            };
        };
        match watcher.watch(place) {
            Some(watch) => write!(f, "{}", WatchText(watch)),
            None => f.write_str("not watched"),
        }
    }
}
