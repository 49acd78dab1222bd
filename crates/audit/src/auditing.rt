// An audit of a recorded run.
ghost use Rattle.std.specs.Prelude.{◌≡◌, ℕ, ◌<◌, min, false, [], length, take, Some};
ghost use Rattle.runs.specs.Histories.{History, past};
ghost use Rattle.runs.specs.Promises.{AllOwed};
ghost use Rattle.audit.specs.Owing.{named};
ghost use Rattle.audit.specs.Watchers.{Watches, OwedAt, WatchedOwed};

use crate::shapes::Shape;
use crate::watchers::Watcher;
use std::iter::Zip;
use std::slice::Iter;
use unit::{Answer, Call};

// How many calls an audit went through, and how many of their answers are not as the promise says.
#[derive(Clone, Copy)]
pub struct Findings {
    pub made: usize,
    pub differing: usize,
}

impl Watcher {
    // Whether an answer is not the one that the calls before make owed. One that the promise allows never is, and at a watched place one that it does not allow always is.
    fn does_differ(self, call: Call, answer: Answer) -> bool
        ensures fair { (h : History) → Watches self h → OwedAt self.shape h call answer → result ≡ false }
        ensures found { (h : History) → Watches self h → (p : ℕ) → named call ≡ Some p → p < 4 → result ≡ false → OwedAt self.shape h call answer }
    {
        self.owed(call).is_some_and(|due| !due.is_paid(answer))
    }
}

// Each call with its answer, from the first on.
fn paired<'a>(calls: &'a [Call], answers: &'a [Answer]) -> Zip<Iter<'a, Call>, Iter<'a, Answer>>
    ensures calls { result.a.rest.now ≡ calls.now }
    ensures answers { result.b.rest.now ≡ answers.now }
{
    calls.iter().zip(answers)
}

// Goes through calls on a new unit and their answers. A run that keeps the promise is never blamed, and one that is not blamed keeps it at the watched places.
pub fn audit(shape: Shape, calls: &[Call], answers: &[Answer]) -> Findings
    ensures made { result.made ≡ min (length calls.now) (length answers.now) }
    ensures fair { AllOwed shape.width shape.checks shape.places (past [] (take result.made calls.now) (take result.made answers.now)) → result.differing ≡ 0 }
    ensures found { result.differing ≡ 0 → WatchedOwed shape (past [] (take result.made calls.now) (take result.made answers.now)) }
{
    let mut watcher = Watcher::new(shape);
    let mut differing = 0;
    for (call, answer) in paired(calls, answers) {
        if watcher.does_differ(*call, *answer) {
            differing += 1;
        }
        watcher = watcher.after(*call, *answer);
    }
    Findings {
        made: calls.len().min(answers.len()),
        differing,
    }
}
