// How a log is kept.
ghost use Rattle.std.specs.Prelude.{◌≡◌};
ghost use Rattle.error_log.specs.Logs.{new_log, noted, error_half, LogKept};

use crate::logs::Log;
use crate::records::{FirstError, Kind, RawWord};

impl Log {
    // A log of which nothing was heard, as it is after a clear.
    pub fn new() -> Log
        ensures { result.state ≡ new_log }
    {
        Log {
            counter: 0,
            kind: Kind::Quiet,
            syndrome: 0,
            taken: None,
            first: None,
            first_raw: RawWord { data: 0, check: 0 },
        }
    }

    // Records a raw word that was taken at a place. A syndrome that is not 0 is an error.
    pub fn note(&mut self, place: u16, raw: RawWord, syndrome: u8, damaged: bool)
        ensures { self.new.state ≡ noted place raw syndrome damaged self.old.state }
    {
        self.taken = Some(raw);
        if syndrome == 0 {
            return;
        }
        if self.counter == 0 {
            self.first = Some(place);
            self.first_raw = raw;
        }
        self.counter = (self.counter + 1).min(15);
        self.kind = if damaged { Kind::Damaged } else { Kind::Single };
        self.syndrome = syndrome;
    }

    // The raw word last taken.
    pub fn taken(&self) -> Option<RawWord>
        ensures { result ≡ self.now.state.taken }
    {
        let Log { taken, .. } = self;
        *taken
    }

    // The first error.
    pub fn first(&self) -> Option<FirstError>
        ensures { result ≡ self.now.state.first }
    {
        match self.first {
            Some(place) => Some(FirstError {
                place,
                raw: self.first_raw,
            }),
            None => None,
        }
    }

    // The upper half of the log word: kind, counter and syndrome of the latest error.
    pub fn errors(&self) -> u16
        ensures told { result ≡ error_half self.now.state }
        ensures kept { LogKept self.now.state.counter self.now.state.kind }
    {
        self.kind as u16 * 0x4000 + self.counter as u16 * 0x100 + self.syndrome as u16
    }
}
