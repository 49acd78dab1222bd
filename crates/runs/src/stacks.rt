// Stacks of layers.
ghost use Rattle.std.specs.Prelude.{◌≡◌};
ghost use Rattle.runs.specs.Stacks.{StacksStand};

use card::Card;

// How many kinds of layers stand on cards: units, pairs and parity layers. Every stack of them over two cards is a card itself.
pub fn layer_kinds<A: Card, B: Card>(_one: &A, _other: &B) -> u8
    ensures kinds { result ≡ 3 }
    ensures stand { StacksStand A.Card.model B.Card.model }
{
    kinds()
}

// Units, pairs, parity layers.
fn kinds() -> u8
    ensures { result ≡ 3 }
{
    let [unit, pair, parity] = [1, 1, 1];
    unit + pair + parity
}
