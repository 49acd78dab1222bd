// What a log is made of.

// The kind of the latest error, by the two bits that show it at the top of the log word.
#[derive(Clone, Copy, PartialEq, Eq, Debug)]
pub enum Kind {
    // there was no error
    Quiet = 0,
    // two cells or more were wrong
    Damaged = 1,
    // one cell was wrong, and was put right
    Single = 2,
}

// A word of the card below a unit, cut into its data and its check bits.
#[derive(Clone, Copy, PartialEq, Eq, Debug)]
pub struct RawWord {
    pub data: u64,
    pub check: u8,
}

// The first error since the log was cleared: where it was met, and the raw word taken there.
#[derive(Clone, Copy, PartialEq, Eq, Debug)]
pub struct FirstError {
    pub place: u16,
    pub raw: RawWord,
}
