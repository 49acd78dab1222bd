// What the calls made so far and their answers tell of one place.
ghost use Rattle.std.specs.Prelude.{◌≡◌, ℕ, ◌+◌, ◌*◌, ◌/◌, ◌<◌, ◌≤◌, true, false, not, ◌&&◌, [], ◌∷◌, if◌then◌else◌};
ghost use Rattle.word.specs.Words.{value};
ghost use Rattle.parts.specs.Merges.{bit};
ghost use Rattle.runs.specs.Histories.{History, granted as is_granted, writes, stores, hits, number_of, of_cells, merged_cell, laid_by};
ghost use Rattle.audit.specs.Shapes.{cells_of, lanes_of};
ghost use Rattle.audit.specs.Watching.{marked, Sees, Told};

use crate::shapes::Shape;
use unit::{Answer, Call};
use word::{Word, join_lanes, lanes_of};

// A place, and its past in the words of the promise.
#[derive(Clone, Copy)]
pub struct Watch {
    pub place: u16,
    // the cells that granted injects have hit an odd number of times since the latest granted store
    pub upset: [bool; 72],
    // written, and never three cells upset at once since then
    pub in_hand: bool,
    // the last word stored
    pub laid: Word,
}

// Not refused.
fn grants(answer: Answer) -> bool
    ensures { result ≡ is_granted answer }
{
    answer.is_ok()
}

// Whether a call stores a whole word at a place: a write, or a merge that keeps no lane.
fn does_write(place: u16, call: Call) -> bool
    ensures { result ≡ writes place call }
{
    match call {
        Call::Write(at, _) | Call::Merge(at, _, 0) => place == at,
        _ => false,
    }
}

// Whether a call stores fresh check bits at a place: a write, a merge or a scrub.
fn does_store(place: u16, call: Call) -> bool
    ensures { result ≡ stores place call }
{
    match call {
        Call::Write(at, _) | Call::Merge(at, _, _) | Call::Scrub(at) => place == at,
        _ => false,
    }
}

// The old byte of a lane where its enable is set, else the new one.
fn kept_byte(enables: u8, lane: u8, old: u8, new: u8) -> u8
    requires { lane < 8 }
    ensures { result ≡ (if bit lane enables then old else new) }
{
    if (enables >> lane) % 2 == 1 { old } else { new }
}

// Two words merged: each cell is the old one's where the enable of its lane is set, else the new one's. An audit judges a unit's merges, so it
// makes them without the unit's own.
fn merge_lanes(lanes: u8, enables: u8, old: Word, new: Word) -> Word
    requires { lanes ≤ 8 }
    ensures { value result ≡ of_cells (merged_cell enables (value old) (value new)) (8 * lanes) }
{
    let olds = lanes_of(old.low);
    let news = lanes_of(new.low);
    let mut bytes = [0u8; 8];
    for lane in 0..lanes {
        let at = lane as usize;
        bytes[at] = kept_byte(enables, lane, olds[at], news[at]);
    }
    Word::from(join_lanes(bytes))
}

// The word that a call stores over an old one.
fn lay_over(lanes: u8, old: Word, call: Call) -> Word
    requires { lanes ≤ 8 }
    ensures { value result ≡ laid_by lanes (value old) call }
{
    match call {
        Call::Write(_, word) => word,
        Call::Merge(_, word, enables) => merge_lanes(lanes, enables, old, word),
        _ => old,
    }
}

// The upset cells of a place after one more granted call, which stores nothing there: an inject there turns one cell.
fn turn(upset: [bool; 72], place: u16, call: Call) -> [bool; 72]
    ensures { (x : ℕ) → x < 72 → marked result x ≡ (if hits place x call then not (marked upset x) else marked upset x) }
{
    let mut upset = upset;
    if let Call::Inject(at, cell) = call
        && place == at
        && cell < 72
    {
        upset[cell as usize] = !upset[cell as usize];
    }
    upset
}

// In hand from a write on, for as long as few cells are upset.
fn keep_in_hand(written: bool, before: bool, few: bool) -> bool
    ensures { result ≡ (if written then true else before && few) }
{
    written || before && few
}

impl Watch {
    // A place of which nothing was heard.
    pub(crate) fn new(place: u16) -> Watch
        ensures here { result.place ≡ place }
        ensures seen { (cells lanes : ℕ) → cells ≤ 72 → Sees cells lanes [] result }
    {
        Watch {
            place,
            upset: [false; 72],
            in_hand: false,
            laid: Word::ZERO,
        }
    }

    // How many of its first cells are upset.
    pub(crate) fn upset_cells(&self, cells: u8) -> u8
        requires { cells ≤ 72 }
        ensures { result ≡ number_of (marked self.now.upset) cells }
    {
        // The compiler makes vector code of this loop and none of a chain of `filter` and `count`, with which an audit takes twice as long.
        let mut count = 0;
        for upset in &self.upset[..cells as usize] {
            if *upset {
                count += 1;
            }
        }
        count
    }

    // After one more granted call, but for its being in hand.
    fn granted(self, shape: Shape, call: Call) -> Watch
        ensures { Told 72 (lanes_of shape) call self result }
    {
        if does_store(self.place, call) {
            Watch {
                upset: [false; 72],
                laid: lay_over(shape.lanes(), self.laid, call),
                ..self
            }
        } else {
            Watch {
                upset: turn(self.upset, self.place, call),
                ..self
            }
        }
    }

    // After one more call.
    pub(crate) fn after(self, shape: Shape, call: Call, answer: Answer) -> Watch
        ensures here { result.place ≡ self.place }
        ensures seen { (h : History) → Sees (cells_of shape) (lanes_of shape) h self → Sees (cells_of shape) (lanes_of shape) (record { call = call; answer = answer } ∷ h) result }
    {
        let granted = grants(answer);
        let told = if granted {
            self.granted(shape, call)
        } else {
            self
        };
        let written = granted && does_write(self.place, call);
        let few = told.upset_cells(shape.cells()) < 3;
        Watch {
            in_hand: keep_in_hand(written, self.in_hand, few),
            ..told
        }
    }
}
