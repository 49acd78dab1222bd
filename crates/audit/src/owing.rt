// What the promise makes of an answer, worked out from the calls before it.
ghost use Rattle.std.specs.Prelude.{◌≡◌, ℕ, Some, None, ◌↔◌, IsTrue};
ghost use Rattle.unit.specs.Steps.{Answer as Answered};
ghost use Rattle.unit.specs.declared.calls.Reply.{Reply as Replied};
ghost use Rattle.word.specs.declared.words.Word.{Word as Worded};
ghost use Rattle.runs.specs.Histories.{History};
ghost use Rattle.runs.specs.Promises.{keeps, meets, Owed};
ghost use Rattle.audit.specs.Shapes.{cells_of, lanes_of};
ghost use Rattle.audit.specs.Watching.{Sees};
ghost use Rattle.audit.specs.Owing.{Pays, Settles, Judged, named, finding, due_reading, due_inject, due_at};

use crate::shapes::Shape;
use crate::watching::Watch;
use unit::{Answer, Call, Reply};
use word::{Fault, Refusal, Word};

// The answer that is owed to a call.
#[derive(Clone, Copy, PartialEq, Eq, Debug)]
pub enum Due {
    // this very answer
    This(Answer),
    // a log word, and its counter if that is owed too
    LogWord(Option<u8>),
}

impl Due {
    // Whether an answer is the one that is owed.
    pub fn is_paid(self, answer: Answer) -> bool
        ensures { IsTrue result ↔ Pays self answer }
    {
        match self {
            Due::This(owed) => answer == owed,
            Due::LogWord(counter) => is_log(answer, counter),
        }
    }
}

// Whether an answer is a log word, with this counter if there is one.
fn is_log(answer: Answer, counter: Option<u8>) -> bool
    ensures { IsTrue result ↔ Pays (Due.LogWord counter) answer }
{
    match (answer, counter) {
        (Ok(Reply::LogWord(_)), None) => true,
        (Ok(Reply::LogWord(word)), Some(counter)) => (word >> 24) % 16 == counter as u32,
        _ => false,
    }
}

// Whether a call was owed an answer, and got it.
#[derive(Clone, Copy, PartialEq, Eq, Debug)]
pub enum Verdict {
    Free,
    Agrees,
    Differs,
}

// An answer beside the one that is owed, if there is one.
pub fn judge(owed: Option<Due>, answer: Answer) -> Verdict
    ensures { Judged owed answer result }
{
    match owed {
        None => Verdict::Free,
        Some(due) if due.is_paid(answer) => Verdict::Agrees,
        Some(_) => Verdict::Differs,
    }
}

// Whether a merge keeps a lane, and its word and enables fit.
fn does_keep(shape: Shape, word: Word, enables: u8) -> bool
    ensures { result ≡ keeps shape.width shape.checks shape.places word enables }
{
    let fits = word.fits(shape.width);
    let exist = (enables as u16) < 1u16 << shape.lanes();
    fits && exist && enables != 0
}

// The place that a call reads: a read, a scrub or a merge that keeps a lane, unless its own arguments are refused.
pub(crate) fn place_met(shape: Shape, call: Call) -> Option<u16>
    ensures { result ≡ meets shape.width shape.checks shape.places call }
{
    let place = match call {
        Call::Read(place) | Call::Scrub(place) => place,
        Call::Merge(place, word, enables) if does_keep(shape, word, enables) => place,
        _ => return None,
    };
    ((place as u32) < shape.places).then_some(place)
}

impl Watch {
    // What a reading of this place is to find, if the place is in hand.
    fn found(self, shape: Shape) -> Option<Result<Word, Fault>>
        ensures { result ≡ finding (cells_of shape) self }
    {
        if !self.in_hand {
            return None;
        }
        if self.upset_cells(shape.cells()) < 2 {
            Some(Ok(self.laid))
        } else {
            Some(Err(Fault::arise(Refusal::Two, self.place)))
        }
    }

    // The answer owed to a reading of this place, which makes this reply of a word.
    fn owe_reading<F: FnOnce(Word) -> Reply>(self, shape: Shape, reply: F) -> Option<Due>
        requires { F.IsAlwaysCallable reply }
        ensures { (told : Worded → Replied) → ((w : Worded) (r : Replied) → F.post reply w r → r ≡ told w) → result ≡ due_reading told (finding (cells_of shape) self) }
    {
        let found = self.found(shape)?;
        Some(Due::This(found.map(reply)))
    }

    // The answer owed to a merge or a scrub of this place that reads it.
    fn owe_old(self, shape: Shape) -> Option<Due>
        ensures { result ≡ due_reading (λ old. Reply.Merged (Some old)) (finding (cells_of shape) self) }
    {
        self.owe_reading(shape, |old| Reply::Merged(Some(old)))
    }

    // The answer owed to an inject into this place.
    fn owe_inject(self, shape: Shape, cell: u8) -> Option<Due>
        ensures { result ≡ due_inject (cells_of shape) self cell }
    {
        if !self.in_hand {
            return None;
        }
        let answer = if cell < shape.cells() {
            Ok(Reply::Done)
        } else {
            Err(Fault::arise(Refusal::Cell, self.place))
        };
        Some(Due::This(answer))
    }

    // The answer owed to a call that names this place, as its watch has it.
    fn owe(self, shape: Shape, call: Call) -> Option<Due>
        ensures { result ≡ due_at shape.width shape.checks self call }
    {
        match call {
            Call::Read(_) => self.owe_reading(shape, Reply::Gave),
            Call::Merge(_, word, enables) if does_keep(shape, word, enables) => self.owe_old(shape),
            Call::Scrub(_) => self.owe_old(shape),
            Call::Inject(_, cell) => self.owe_inject(shape, cell),
            _ => None,
        }
    }

    // The answer owed to a call that names this place: what pays it is what the promise asks for, no more and no less.
    pub(crate) fn owed(self, shape: Shape, call: Call) -> Option<Due>
        ensures { (places : ℕ) (h : History) → Sees (cells_of shape) (lanes_of shape) h self → named call ≡ Some self.place → (a : Answered) → Settles result a ↔ Owed shape.width shape.checks places h call a }
    {
        self.owe(shape, call)
    }
}
