// The widths that a card can have.
ghost use Rattle.std.specs.Prelude.{◌≡◌};
ghost use Rattle.card.specs.Widths.{proper, shown_width};

// The width of a card with no places.
const WIDEST: u8 = 72;

// Whether a card that was made with this width has places.
pub(crate) fn is_proper(width: u8) -> bool
    ensures { result ≡ proper width }
{
    (1..=WIDEST).contains(&width)
}

// The width that a card shows which was made with this one.
pub(crate) fn shown_width(width: u8) -> u8
    ensures { result ≡ shown_width width }
{
    if is_proper(width) { width } else { WIDEST }
}
