// Calls drawn from a sequence of numbers that looks like chance and is the same at each run.
ghost use Rattle.std.specs.Prelude.{◌<◌};

use audit::Shape;
use unit::Call;
use word::Word;

// The sequence: three shifts, each added without carry. Its calls are for a unit of this shape.
#[derive(Clone, Copy)]
pub struct Draws {
    shape: Shape,
    state: u64,
}

impl Draws {
    // The sequence that begins at a number; at 0 it would stay there.
    pub fn new(shape: Shape, start: u64) -> Draws {
        Draws {
            shape,
            state: start | 1,
        }
    }

    // The next number.
    fn next(&mut self) -> u64 {
        self.state ^= self.state << 13;
        self.state ^= self.state >> 7;
        self.state ^= self.state << 17;
        self.state
    }

    // One of the numbers below `many`.
    fn below(&mut self, many: u8) -> u8
        requires { 0 < many }
        ensures { result < many }
    {
        ((self.next() >> 20) % many as u64) as u8
    }

    // Mostly a place that is watched, now and then one that no unit here has.
    fn place(&mut self) -> u16 {
        match self.below(40) {
            0 => 0xffff,
            1 => 200,
            n => n as u16 % 4,
        }
    }

    // Mostly one of a few cells, so that they are hit again soon; now and then any number.
    fn cell(&mut self) -> u8 {
        match self.below(16) {
            0 => self.below(255),
            1..=5 => self.below(self.shape.cells().max(1)),
            n => n % 4 * 9,
        }
    }

    // Mostly a word that fits.
    fn word(&mut self) -> Word {
        let low = self.next();
        if self.below(16) == 0 {
            return Word { low, top: 1 };
        }
        if self.shape.width == 64 {
            Word::from(low)
        } else {
            Word::from(low % 0x1_0000_0000)
        }
    }

    // Mostly enables that name lanes which exist.
    fn enables(&mut self) -> u8 {
        match self.below(16) {
            0 => 0,
            1 => 0xff,
            _ => self.below(if self.shape.lanes() == 8 { 255 } else { 16 }),
        }
    }

    // Any call, injects and reads most often.
    pub fn call(&mut self) -> Call {
        match self.below(32) {
            0..=8 => Call::Inject(self.place(), self.cell()),
            9..=15 => Call::Read(self.place()),
            16..=20 => Call::Merge(self.place(), self.word(), self.enables()),
            21..=24 => Call::Scrub(self.place()),
            25..=27 => Call::Write(self.place(), self.word()),
            28..=29 => Call::Log,
            30 => Call::First,
            _ => Call::Clear,
        }
    }
}
