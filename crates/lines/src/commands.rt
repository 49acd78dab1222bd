// The commands of a script.
ghost use Rattle.std.specs.Prelude.{◌≡◌, ◌*◌, ◌^◌, ◌<◌};
ghost use Rattle.lines.specs.Hex.{hex};

// A field of a line: so many digits, a part of the script's text, and the number that they spell.
#[derive(Clone, Copy)]
pub struct Field<'a, const DIGITS: usize> {
    pub text: &'a [u8; DIGITS],
    pub number: u64,
    pub ghost fits: { number < 2 ^ (4 * DIGITS) },
    pub ghost spelled: { text.now ≡ hex DIGITS number },
}

// What a line asks for. Its fields stay parts of the script's text.
#[derive(Clone, Copy)]
pub enum Command<'a> {
    // place
    Read(Field<'a, 4>),
    // place and word
    Write(Field<'a, 4>, Field<'a, 16>),
    // place, enables and word
    Merge(Field<'a, 4>, Field<'a, 2>, Field<'a, 16>),
    // place
    Scrub(Field<'a, 4>),
    // place and cell
    Inject(Field<'a, 4>, Field<'a, 2>),
    Log,
    First,
    Clear,
}
