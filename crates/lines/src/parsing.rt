// From a line to a call.
ghost use Rattle.std.specs.Prelude.{◌≡◌, ℕ, ◌*◌, ◌^◌, ◌<◌, ◌≤◌, List, ◌∷◌, ◌++◌, MatchOption, ◌≢◌};
ghost use Rattle.unit.specs.declared.calls.Call.{Call as Called};
ghost use Rattle.lines.specs.Texts.{field, letter_of, fields_of, line_of};
ghost use Rattle.lines.specs.Commands.{command_text, Scripted, Parsed};

use crate::commands::{Command, Field};
use crate::hex::number;
use unit::Call;
use word::Word;

// A blank and a field off the front, and the rest.
fn take_field<const DIGITS: usize>(text: &[u8]) -> Option<(Field<'_, DIGITS>, &[u8])>
    requires { DIGITS ≤ 16 }
    ensures { MatchOption result ((v : ℕ) (t : List ℕ) → v < 2 ^ (4 * DIGITS) → text.now ≢ field DIGITS v ++ t) (λ p. text.now ≡ (32 ∷ p.0.text.now) ++ p.1.now) }
{
    let [b' ', rest @ ..] = text else {
        return None;
    };
    let (text, after) = rest.split_first_chunk()?;
    let number = number(text)?;
    Some((Field { text, number }, after))
}

// A blank and a field, with nothing after it.
fn one_field<const DIGITS: usize>(text: &[u8]) -> Option<Field<'_, DIGITS>>
    requires { DIGITS ≤ 16 }
    ensures { MatchOption result ((v : ℕ) → v < 2 ^ (4 * DIGITS) → text.now ≢ field DIGITS v) (λ f. text.now ≡ 32 ∷ f.text.now) }
{
    let (field, rest) = take_field(text)?;
    rest.is_empty().then_some(field)
}

// Two fields, with nothing after them.
fn two_fields<const FIRST: usize, const SECOND: usize>(
    text: &[u8],
) -> Option<(Field<'_, FIRST>, Field<'_, SECOND>)>
    requires first { FIRST ≤ 16 }
    requires second { SECOND ≤ 16 }
    ensures { MatchOption result ((u v : ℕ) → u < 2 ^ (4 * FIRST) → v < 2 ^ (4 * SECOND) → text.now ≢ field FIRST u ++ field SECOND v) (λ p. text.now ≡ (32 ∷ p.0.text.now) ++ (32 ∷ p.1.text.now)) }
{
    let (first, rest) = take_field(text)?;
    let second = one_field(rest)?;
    Some((first, second))
}

// Three fields, with nothing after them.
fn three_fields<const FIRST: usize, const SECOND: usize, const THIRD: usize>(
    text: &[u8],
) -> Option<(Field<'_, FIRST>, Field<'_, SECOND>, Field<'_, THIRD>)>
    requires first { FIRST ≤ 16 }
    requires second { SECOND ≤ 16 }
    requires third { THIRD ≤ 16 }
    ensures { MatchOption result ((u v w : ℕ) → u < 2 ^ (4 * FIRST) → v < 2 ^ (4 * SECOND) → w < 2 ^ (4 * THIRD) → text.now ≢ field FIRST u ++ (field SECOND v ++ field THIRD w)) (λ p. text.now ≡ (32 ∷ p.0.text.now) ++ ((32 ∷ p.1.text.now) ++ (32 ∷ p.2.text.now))) }
{
    let (first, rest) = take_field(text)?;
    let (second, third) = two_fields(rest)?;
    Some((first, second, third))
}

// The command of a letter and its fields.
fn lettered(letter: char, fields: &[u8]) -> Option<Command<'_>>
    ensures { MatchOption result ((c : Called) → Scripted c → letter ≡ letter_of c → fields.now ≢ fields_of c) (λ d. letter ∷ fields.now ≡ command_text d) }
{
    match letter {
        'R' => one_field(fields).map(Command::Read),
        'W' => two_fields(fields).map(|(place, word)| Command::Write(place, word)),
        'M' => {
            let (place, enables, word) = three_fields(fields)?;
            Some(Command::Merge(place, enables, word))
        }
        'S' => one_field(fields).map(Command::Scrub),
        'I' => two_fields(fields).map(|(place, cell)| Command::Inject(place, cell)),
        'L' => fields.is_empty().then_some(Command::Log),
        'F' => fields.is_empty().then_some(Command::First),
        'C' => fields.is_empty().then_some(Command::Clear),
        _ => None,
    }
}

// The command of a line, which has no 0A at its end any more.
fn command_of(line: &[u8]) -> Option<Command<'_>>
    ensures { MatchOption result ((c : Called) → Scripted c → line.now ≢ line_of c) (λ d. line.now ≡ command_text d) }
{
    match line {
        [letter, fields @ ..] => lettered(char::from(*letter), fields),
        [] => None,
    }
}

// The call that a command asks for.
impl From<Command<'_>> for Call {
    ghost from_gives = { λ d c. Scripted c × (command_text d ≡ line_of c) };

    fn from(command: Command<'_>) -> Call {
        match command {
            Command::Read(place) => Call::Read(place.number as u16),
            Command::Write(place, word) => {
                Call::Write(place.number as u16, Word::from(word.number))
            }
            Command::Merge(place, enables, word) => Call::Merge(
                place.number as u16,
                Word::from(word.number),
                enables.number as u8,
            ),
            Command::Scrub(place) => Call::Scrub(place.number as u16),
            Command::Inject(place, cell) => Call::Inject(place.number as u16, cell.number as u8),
            Command::Log => Call::Log,
            Command::First => Call::First,
            Command::Clear => Call::Clear,
        }
    }
}

// The call that a line asks for: the one whose text it is, or none.
pub fn parse(line: &[u8]) -> Option<Call>
    ensures { Parsed line.now result }
{
    command_of(line).map(Call::from)
}
