// The log of a unit.
ghost use Rattle.error_log.specs.Logs.{LogKept};

use crate::records::{Kind, RawWord};
use std::marker::Model;

mod keeping;

// What the readings of a unit met since the log was new or cleared.
#[derive(Drop)]
pub struct Log {
    // how many errors, held at 15
    counter: u8,
    // the latest error's kind and syndrome
    kind: Kind,
    syndrome: u8,
    // the raw word last taken, sound or not
    taken: Option<RawWord>,
    // the place of the first error, and the raw word that was taken there
    first: Option<u16>,
    first_raw: RawWord,
    ghost kept: { LogKept counter kind },
}

impl Model for Log {
    ghost use Rattle.error_log.specs.Logs.{KeptLog, with_raw};

    ghost Value = { KeptLog };

    ghost view = { λ l. record { state = record { counter = l.counter; kind = l.kind; syndrome = l.syndrome; taken = l.taken; first = with_raw l.first l.first_raw }; kept = l.kept } };
}
