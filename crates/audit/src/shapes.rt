// The size of a unit, as far as the promise speaks of it.
ghost use Rattle.std.specs.Prelude.{◌≡◌, ◌+◌, ◌/◌, ◌≤◌};

#[derive(Clone, Copy)]
pub struct Shape {
    // data cells of a word
    pub width: u8,
    // check cells beside it
    pub checks: u8,
    pub places: u32,
    ghost fits: { (width ≤ 64) × (width + checks ≤ 72) },
}

impl Shape {
    // How many cells a raw word has.
    pub fn cells(self) -> u8
        ensures all { result ≡ self.width + self.checks }
        ensures few { result ≤ 72 }
    {
        self.width + self.checks
    }

    // How many lanes a word has.
    pub fn lanes(self) -> u8
        ensures all { result ≡ self.width / 8 }
        ensures few { result ≤ 8 }
    {
        self.width / 8
    }
}
