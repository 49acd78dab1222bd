// A script run on a unit.
ghost use Rattle.std.specs.Prelude.{◌≡◌, ◌<◌, ◌≤◌, false, true, None, List, ◌∷◌, length, take, drop, MatchOption, ◌==◌};
ghost use Rattle.std.specs.List.{position};
ghost use Rattle.unit.specs.States.{state_of};
ghost use Rattle.runs.specs.Runs.{new_unit, final};
ghost use Rattle.unit.specs.declared.calls.Call.{Call as Called};
ghost use Rattle.lines.specs.Commands.{Parsed};
ghost use Rattle.script.specs.Scripts.{lines as cut_lines, reply as replied, Ran, GoesOn};

use crate::printing::Page;
use card::Card;
use code::Code;
use lines::parse;
use unit::{Answer, Call, Unit};
use word::{Fault, Refusal};

// No line of output is longer; with less room than this left, a run stops.
pub const LINE_MOST: usize = 32;

// How a run ended.
#[derive(Clone, Copy, PartialEq, Eq, Debug)]
pub struct Report {
    // how many lines were run, refused ones too
    pub lines: usize,
    // how many bytes of output were written
    pub written: usize,
    // whether it stopped before a line, with fewer than 32 bytes left
    pub stopped: bool,
}

// The place of the first 0A.
fn line_end(text: &[u8]) -> Option<usize>
    ensures { result ≡ position (λ b. b == 10) text.now }
{
    text.iter().position(|byte| *byte == b'\n')
}

// The first line of a text without the 0A that ends it, or nothing where none does, and what stands behind it.
#[tactic(auto, using(crate::proofs::RunFacts::line_unfinished))]
fn first_line(text: &[u8]) -> (Option<&[u8]>, &[u8])
    requires { 0 < length text.now }
    ensures cut { MatchOption result.0 (cut_lines text.now ≡ record { bytes = text.now; ended = false } ∷ cut_lines result.1.now) (λ line. cut_lines text.now ≡ record { bytes = line.now; ended = true } ∷ cut_lines result.1.now) }
    ensures shorter { length result.1.now < length text.now }
{
    match line_end(text) {
        Some(end) => (Some(&text[..end]), &text[end + 1..]),
        None => (None, &[]),
    }
}

// What a line asks for. An unfinished line asks for nothing.
fn asked(line: Option<&[u8]>) -> Option<Call>
    ensures { MatchOption line.entry (result ≡ None) (λ text. Parsed text.now result) }
{
    parse(line?)
}

// The answer to what a line asks for.
fn answer_to<C: Code, D: Card>(unit: &mut Unit<C, D>, call: Option<Call>) -> Answer
    ensures answer { result ≡ (replied C.Code.code D.Card.model (state_of D.Card.state unit.old) call).answer }
    ensures after { state_of D.Card.state unit.new ≡ (replied C.Code.code D.Card.model (state_of D.Card.state unit.old) call).state }
{
    let call = call.ok_or(Fault::arise(Refusal::Line, 0))?;
    unit.make(call)
}

// Runs a script on a unit, and writes the answers, a line each, into the output.
pub fn run<C: Code, D: Card>(unit: &mut Unit<C, D>, script: &[u8], out: &mut [u8]) -> Report
    ensures ran { Ran C.Code.code D.Card.model (state_of D.Card.state unit.old) (length out.old) (cut_lines script.now) (record { state = state_of D.Card.state unit.new; text = take result.written out.new; count = result.lines; stopped = result.stopped }) }
    ensures promise { (t : D.Card.model.State) (before : List Called) → state_of D.Card.state unit.old ≡ final C.Code.code D.Card.model (new_unit C.Code.code D.Card.model t) before → GoesOn C.Code.code D.Card.model (cut_lines script.now) result.lines t before (state_of D.Card.state unit.new) }
    ensures within { result.written ≤ length out.old }
    ensures rest { drop result.written out.new ≡ drop result.written out.old }
{
    let mut page = Page::new(out);
    let mut lines = 0;
    let mut rest = script;
    while !rest.is_empty() {
        if page.room() < LINE_MOST {
            return Report {
                lines,
                written: page.written(),
                stopped: true,
            };
        }
        let (line, behind) = first_line(rest);
        let answer = answer_to(unit, asked(line));
        lines = page.tell(lines, answer);
        rest = behind;
    }
    Report {
        lines,
        written: page.written(),
        stopped: false,
    }
}
