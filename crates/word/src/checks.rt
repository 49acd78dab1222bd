// What every memory asks of a call before it reaches a place.
ghost use Rattle.std.specs.Prelude.{◌≡◌, ◌^◌, ◌<◌, ◌≤◌, MatchResult};
ghost use Rattle.word.specs.Words.{value};
ghost use Rattle.word.specs.Faults.{arisen};

use crate::faults::Fault;
use crate::refusals::Refusal;
use crate::words::Word;

// Refuses a place that is not below the count.
pub fn check_place(place: u16, count: u32) -> Result<(), Fault>
    ensures { MatchResult result (λ _. place < count) (λ fault. (count ≤ place) × (fault ≡ arisen Refusal.Place place)) }
{
    if (place as u32) < count {
        Ok(())
    } else {
        Err(Fault::arise(Refusal::Place, place))
    }
}

// Refuses a word, meant for a place, that is not below 2^width.
pub fn check_width(word: Word, width: u8, place: u16) -> Result<(), Fault>
    ensures { MatchResult result (λ _. value word < 2 ^ width) (λ fault. (2 ^ width ≤ value word) × (fault ≡ arisen Refusal.Wide place)) }
{
    if word.fits(width) {
        Ok(())
    } else {
        Err(Fault::arise(Refusal::Wide, place))
    }
}
