// What the calls made so far and their answers tell of some places and of the log.
ghost use Rattle.std.specs.Prelude.{◌≡◌, ℕ, ◌+◌, ◌<◌, ◌≤◌, [], ◌∷◌, if◌then◌else◌, Some, None, nat_lt};
ghost use Rattle.unit.specs.Steps.{Answer as Answered};
ghost use Rattle.runs.specs.Histories.{History};
ghost use Rattle.audit.specs.Shapes.{cells_of, lanes_of};
ghost use Rattle.audit.specs.Owing.{named};
ghost use Rattle.audit.specs.Watchers.{watch_of, SeesLog, SeesReading, SeesAll, Follows, log_met, log_read, log_next, Fair, Watches};

use crate::owing::{Due, place_met};
use crate::shapes::Shape;
use crate::watching::Watch;
use unit::{Answer, Call};

// The places from 0 on that are watched, and the log of a unit of this shape.
#[derive(Clone, Copy)]
pub struct Watcher {
    pub shape: Shape,
    pub watches: [Watch; 4],
    // if every reading since the log was new or cleared met a watched place in hand, how many of them met an upset cell, held at 15;
    // none where a reading met another place, or one that was not in hand
    pub errors_met: Option<u8>,
}

// The place that a call names.
pub fn place_named(call: Call) -> Option<u16>
    ensures { result ≡ named call }
{
    match call {
        Call::Read(place)
        | Call::Write(place, _)
        | Call::Merge(place, _, _)
        | Call::Scrub(place)
        | Call::Inject(place, _) => Some(place),
        Call::Log | Call::First | Call::Clear => None,
    }
}

// The errors met after a reading that met a watched place.
fn count_met(errors_met: Option<u8>, shape: Shape, watch: Watch) -> Option<u8>
    ensures { result ≡ log_met (cells_of shape) errors_met watch }
{
    let errors = errors_met?;
    if !watch.in_hand {
        None
    } else if watch.upset_cells(shape.cells()) > 0 {
        Some(errors.saturating_add(1).min(15))
    } else {
        Some(errors)
    }
}

// Each watch after one more call.
fn move_watches(shape: Shape, watches: [Watch; 4], call: Call, answer: Answer) -> [Watch; 4]
    ensures { (p : ℕ) → p < 4 → Follows (cells_of shape) (lanes_of shape) (record { call = call; answer = answer }) (watch_of watches p) (watch_of result p) }
{
    let mut moved = watches;
    for watch in &mut moved {
        *watch = watch.after(shape, call, answer);
    }
    moved
}

impl Watcher {
    // A new unit, of which nothing was heard.
    pub fn new(shape: Shape) -> Watcher
        ensures shape { result.shape ≡ shape }
        ensures log { result.errors_met ≡ Some 0 }
        ensures seen { (n k places : ℕ) → n + k ≤ 72 → SeesAll n k places [] result }
    {
        Watcher {
            shape,
            watches: [0, 1, 2, 3].map(Watch::new),
            errors_met: Some(0),
        }
    }

    // A place as the calls so far tell of it, if it is watched.
    pub fn watch(self, place: u16) -> Option<Watch>
        ensures { result ≡ (if nat_lt place 4 then Some (watch_of self.watches place) else None) }
    {
        self.watches.get(place as usize).copied()
    }

    // The errors met after a reading of a place.
    fn read(self, place: u16) -> Option<u8>
        ensures seen { (h : History) → Watches self h → SeesReading self.shape.width self.shape.checks self.shape.places h (Some place) result }
        ensures exact { result ≡ log_read self place }
    {
        count_met(self.errors_met, self.shape, self.watch(place)?)
    }

    // The errors met after one more call; the place that the call reads is as it was before it.
    fn errors_after(self, call: Call) -> Option<u8>
        ensures exact { result ≡ log_next self call }
        ensures seen { (h : History) (a : Answered) → Watches self h → SeesLog self.shape.width self.shape.checks self.shape.places (record { call = call; answer = a } ∷ h) result }
    {
        if call == Call::Clear {
            return Some(0);
        }
        place_met(self.shape, call).map_or(self.errors_met, |place| self.read(place))
    }

    // After one more call.
    pub fn after(self, call: Call, answer: Answer) -> Watcher
        ensures shape { result.shape ≡ self.shape }
        ensures log { result.errors_met ≡ log_next self call }
        ensures seen { (h : History) → Watches self h → Watches result (record { call = call; answer = answer } ∷ h) }
    {
        Watcher {
            shape: self.shape,
            watches: move_watches(self.shape, self.watches, call, answer),
            errors_met: self.errors_after(call),
        }
    }

    // The answer that the calls so far make owed to a call; nothing is told of places that are not watched.
    pub fn owed(self, call: Call) -> Option<Due>
        ensures fair { (h : History) → Watches self h → Fair self.shape h call result }
        ensures log { call ≡ Call.Log → result ≡ Some (Due.LogWord self.errors_met) }
    {
        if call == Call::Log {
            return Some(Due::LogWord(self.errors_met));
        }
        self.watch(place_named(call)?)?.owed(self.shape, call)
    }
}
