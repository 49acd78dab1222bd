// Runs of calls on a new unit, and the promise over them.
ghost use Rattle.std.specs.Prelude.{◌≡◌, min, [], ◌++◌, length, take, drop};
ghost use Rattle.runs.specs.Histories.{past};
ghost use Rattle.unit.specs.States.{state_of};
ghost use Rattle.runs.specs.Runs.{new_unit, answers as answers_to, final, Kept};

use card::Card;
use code::Code;
use unit::{Answer, Call, Unit};

// A unit after a run, and how many calls were made.
#[derive(Drop)]
pub struct Ran<C: Code, D: Card> {
    pub unit: Unit<C, D>,
    pub made: usize,
}

// Builds a unit with a new log over a card, whatever the card holds, and makes the calls on it in their order, each meeting what
// the earlier ones left, as many as there is room for answers.
pub fn run_calls<C: Code, D: Card>(
    code: C,
    card: D,
    calls: &[Call],
    answers: &mut [Answer],
) -> Ran<C, D>
    ensures made { result.made ≡ min (length calls.now) (length answers.old) }
    ensures told { answers.new ≡ answers_to C.Code.code D.Card.model (new_unit C.Code.code D.Card.model (D.Card.state card)) (take result.made calls.now) ++ drop result.made answers.old }
    ensures after { state_of D.Card.state result.unit ≡ final C.Code.code D.Card.model (new_unit C.Code.code D.Card.model (D.Card.state card)) (take result.made calls.now) }
    ensures kept { Kept C.Code.code D.Card.model (past [] (take result.made calls.now) (take result.made answers.new)) (state_of D.Card.state result.unit) }
{
    let mut unit = Unit::new(code, card);
    let made = calls.len().min(answers.len());
    for (index, call) in calls[..made].iter().enumerate() {
        answers[index] = unit.make(*call);
    }
    Ran { unit, made }
}
