// The parity layer: a card with one parity bit for each lane of its data.
ghost use Rattle.std.specs.Prelude.{◌≡◌, ◌*◌, ◌^◌, ◌<◌, ◌≤◌, slice_index};
ghost use Rattle.word.specs.Words.{value, of_value};
ghost use Rattle.card.specs.Cards.{holds, shown};
ghost use Rattle.layers.specs.Parities.{parity_card, parity_bit, parity_bits, lane_right, with_parity, checked, lanes_in};
ghost use Rattle.layers.specs.ParityLaws.{parity_laws};

use card::Card;
use word::{Fault, Refusal, Word, check_place, check_width, lanes_of};

// What the number of ones of a lane and its parity bit is together.
#[derive(Clone, Copy, PartialEq, Eq, Debug)]
pub enum Sense {
    Even = 0,
    Odd = 1,
}

#[derive(Drop)]
pub struct ParityCard<C> {
    sense: Sense,
    // its words are the data and, above it, the parity bits
    card: C,
}

impl<C: Card> ParityCard<C> {
    // A layer over a card with nine cells for each lane. Any other card shows through it as 64 cells wide, with no place.
    pub fn new(sense: Sense, card: C) -> ParityCard<C>
        ensures { result ≡ record { sense = sense; card = card } }
    {
        ParityCard { sense, card }
    }

    // The lanes of its words, for a card that fits.
    fn lanes(&self) -> Lanes
        ensures sense { result.sense ≡ self.now.sense }
        ensures count { result.count ≡ lanes_in (C.Card.model.width (C.Card.state self.now.card)) }
    {
        Lanes {
            sense: self.sense,
            count: self.card.width() / 9,
        }
    }
}

impl<C: Card> Card for ParityCard<C> {
    ghost model = { parity_card C.Card.model };

    ghost state = { λ c. record { sense = c.sense; card = C.Card.state c.card } };

    ghost laws = { parity_laws C.Card.model C.Card.laws };

    fn width(&self) -> u8 {
        let width = self.card.width();
        if width % 9 == 0 { width / 9 * 8 } else { 64 }
    }

    fn count(&self) -> u32 {
        if self.card.width() % 9 == 0 {
            self.card.count()
        } else {
            0
        }
    }

    fn read(&mut self, place: u16) -> Result<Word, Fault> {
        check_place(place, self.count())?;
        let lanes = self.lanes();
        let raw = self.card.read(place).map_err(Fault::pass_up)?;
        lanes.check(place, raw)
    }

    fn write(&mut self, place: u16, word: Word) -> Result<(), Fault> {
        check_place(place, self.count())?;
        check_width(word, self.width(), place)?;
        let raw = self.lanes().add_bits(word);
        // The card below has this place and this width, so it grants the write.
        self.card.write(place, raw)
    }
}

// The lanes of a word, and the sense of their parity bits.
#[derive(Clone, Copy)]
struct Lanes {
    sense: Sense,
    count: u8,
    ghost few: { count ≤ 8 },
}

impl Lanes {
    // The data of a raw word, or a fault where the bit of a lane is wrong.
    fn check(self, place: u16, raw: Word) -> Result<Word, Fault>
        requires { value raw < 2 ^ (9 * self.count) }
        ensures { result ≡ shown (checked self.sense self.count place (holds (value raw))) }
    {
        let (data, bits) = raw.split(8 * self.count);
        if bits.low == self.bits(lanes_of(data.low)) as u64 {
            Ok(data)
        } else {
            Err(Fault::arise(Refusal::Parity, place))
        }
    }

    // The raw word: the data with the bits of its lanes above.
    fn add_bits(self, word: Word) -> Word
        requires { value word < 2 ^ (8 * self.count) }
        ensures { result ≡ of_value (with_parity self.sense self.count (value word)) }
    {
        let bits = self.bits(lanes_of(word.low));
        Word::join(word, Word::from(bits as u64), 8 * self.count)
    }

    // The bits of these lanes, lane 0's lowest.
    fn bits(self, lanes: [u8; 8]) -> u8
        ensures { result ≡ parity_bits self.sense self.count (λ j. slice_index lanes j) }
    {
        let mut bits = 0;
        for (j, lane) in lanes[..self.count as usize].iter().enumerate() {
            bits += parity(self.sense, *lane) << j;
        }
        bits
    }
}

// The bit with which a lane is right.
fn parity(sense: Sense, lane: u8) -> u8
    ensures { result ≡ parity_bit sense lane }
{
    if is_right(sense, lane, 0) { 0 } else { 1 }
}

// Whether a lane and its bit have the number of ones that the sense asks for.
fn is_right(sense: Sense, lane: u8, bit: u8) -> bool
    requires { bit < 2 }
    ensures { result ≡ lane_right sense lane bit }
{
    (lane.count_ones() + bit as u32) % 2 == sense as u32
}
