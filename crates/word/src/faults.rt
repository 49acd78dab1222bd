// A refusal with where it arose and how it came up.
ghost use Rattle.std.specs.Prelude.{◌≡◌, fold};
ghost use Rattle.word.specs.Faults.{arisen, passed, sided, over_layer, Above};

use crate::refusals::Refusal;

// Which of a pair's two cards.
#[derive(Clone, Copy, PartialEq, Eq, Debug)]
pub enum Side {
    Low = 0,
    High = 1,
}

// A place is the address of one word of a card, counted from 0.
#[derive(Clone, Copy, PartialEq, Eq, Debug)]
pub struct Fault {
    pub refusal: Refusal,
    // how many layers have passed it up, at most 255
    pub depth: u8,
    // the place at the layer where the fault arose
    pub place: u16,
    // the sides of the pairs on its way, one binary digit each, the latest lowest
    pub way: u16,
}

impl Fault {
    // A fault where it arises.
    pub fn arise(refusal: Refusal, place: u16) -> Fault
        ensures { result ≡ arisen refusal place }
    {
        Fault {
            refusal,
            place,
            depth: 0,
            way: 0,
        }
    }

    // The same fault one layer up.
    pub fn pass_up(self) -> Fault
        ensures { result ≡ passed self }
    {
        Fault {
            depth: self.depth.saturating_add(1),
            ..self
        }
    }

    // The same fault above a pair, whose one side it came from.
    pub fn pass_up_from(self, side: Side) -> Fault
        ensures { result ≡ sided side self }
    {
        let doubled = (self.way % 0x8000) * 2;
        Fault {
            way: doubled + side as u16,
            ..self.pass_up()
        }
    }

    // The same fault above a whole stack, the lowest layer first: a side of a pair, or none for a layer over one card.
    pub fn pass_up_through(self, layers: &[Option<Side>]) -> Fault
        ensures { Above layers.now self result }
    {
        climb(self, layers)
    }

    // The same fault above one layer.
    fn pass_up_over(self, layer: Option<Side>) -> Fault
        ensures { result ≡ over_layer layer self }
    {
        match layer {
            Some(side) => self.pass_up_from(side),
            None => self.pass_up(),
        }
    }
}

// One layer after the other.
fn climb(start: Fault, layers: &[Option<Side>]) -> Fault
    ensures { result ≡ fold (λ fault layer. over_layer layer fault) start layers.now }
{
    layers
        .iter()
        .fold(start, |fault, layer| fault.pass_up_over(*layer))
}
