// Runs with the words of the promise beside each call.
use crate::drawing::Draws;
use crate::texts::{AnswerText, CallText, DueText, KnownText, VerdictText};
use audit::{Due, Shape, Watcher, judge, place_named};
use card::Card;
use code::Code;
use std::io;
use unit::{Answer, Call, Unit};

// How many calls a random run makes.
const DRAWN: u32 = 20_000;

// What came of the calls of a run.
#[derive(Clone, Copy, Default)]
struct Totals {
    // answers that the promise says something of
    owed: u32,
    // those of them that are not as it says
    differing: u32,
    // log words whose counter it says
    counters: u32,
    // calls on watched places that were in hand, and on those that were not
    in_hand: u32,
    out_of_hand: u32,
}

impl Totals {
    // One more call, after those that the watcher saw.
    fn count(&mut self, watcher: &Watcher, call: Call, answer: Answer) {
        if let Some(place) = place_named(call)
            && let Some(watch) = watcher.watch(place)
        {
            count_if(&mut self.in_hand, watch.in_hand);
            count_if(&mut self.out_of_hand, !watch.in_hand);
        }
        if let Some(due) = watcher.owed(call) {
            count_if(&mut self.owed, true);
            count_if(&mut self.differing, !due.is_paid(answer));
            count_if(&mut self.counters, matches!(due, Due::LogWord(Some(_))));
        }
    }
}

// One more, where it counts.
fn count_if(total: &mut u32, counts: bool) {
    *total = total.saturating_add(u32::from(counts));
}

// One line of a history.
fn tell_call(rt: &impl Print, watcher: &Watcher, call: Call, answer: Answer) -> io::Result<()> {
    let owed = watcher.owed(call);
    println!(rt;
        "{}: {}; owed {}; given {}{}",
        CallText(call),
        KnownText(*watcher, call),
        DueText(owed),
        AnswerText(answer),
        VerdictText(judge(owed, answer))
    )
}

// A table of calls, line by line.
pub fn tell_table<C: Code, D: Card>(
    rt: &impl Print,
    unit: &mut Unit<C, D>,
    shape: Shape,
    calls: &[Call],
) -> io::Result<()> {
    let mut watcher = Watcher::new(shape);
    let mut totals = Totals::default();
    for call in calls {
        let answer = unit.make(*call);
        tell_call(rt, &watcher, *call, answer)?;
        totals.count(&watcher, *call, answer);
        watcher = watcher.after(*call, answer);
    }
    println!(rt;
        "{} calls, {} owed an answer, {} differ",
        calls.len(),
        totals.owed,
        totals.differing
    )
}

// Draws calls and makes them, and counts what came of them.
fn draw_run<C: Code, D: Card>(unit: &mut Unit<C, D>, shape: Shape, start: u64) -> Totals {
    let mut draws = Draws::new(shape, start);
    let mut watcher = Watcher::new(shape);
    let mut totals = Totals::default();
    for _ in 0..DRAWN {
        let call = draws.call();
        let answer = unit.make(call);
        totals.count(&watcher, call, answer);
        watcher = watcher.after(call, answer);
    }
    totals
}

// A long run of calls that are drawn, and only its totals.
pub fn tell_draws<C: Code, D: Card>(
    rt: &impl Print,
    unit: &mut Unit<C, D>,
    shape: Shape,
    start: u64,
) -> io::Result<()> {
    let totals = draw_run(unit, shape, start);
    println!(rt;
        "drawn: {DRAWN} calls, {} on places in hand, {} on places not in hand",
        totals.in_hand, totals.out_of_hand
    )?;
    println!(rt;
        "drawn: {} owed an answer, {} of them a counter, {} differ",
        totals.owed, totals.counters, totals.differing
    )
}
