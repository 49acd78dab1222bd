// Tables of calls.
use unit::Call;
use word::Word;

// For a 64-bit unit with 128 places: place 0 leaves hand and comes back, the log counts past 15, and arguments are refused.
pub const LONG_WORDS: [Call; 66] = [
    // before any write
    Call::Read(0),
    Call::Inject(0, 5),
    Call::Log,
    Call::Write(0, Word { low: 0xff, top: 0 }),
    Call::Read(0),
    Call::Log,
    Call::Clear,
    Call::Log,
    // a cell hit once, and again
    Call::Inject(0, 0),
    Call::Read(0),
    Call::Log,
    Call::Inject(0, 0),
    Call::Read(0),
    Call::Log,
    // a check cell alone
    Call::Inject(0, 70),
    Call::Read(0),
    Call::Scrub(0),
    Call::Read(0),
    Call::Scrub(0),
    // a data cell and a check cell
    Call::Inject(0, 3),
    Call::Inject(0, 64),
    Call::Read(0),
    Call::Scrub(0),
    Call::Merge(0, Word { low: 0x11, top: 0 }, 0xfe),
    Call::Inject(0, 3),
    Call::Merge(
        0,
        Word {
            low: 0x2211,
            top: 0,
        },
        0xfe,
    ),
    Call::Read(0),
    Call::Log,
    Call::First,
    // more errors than the counter holds
    Call::Inject(0, 10),
    Call::Read(0),
    Call::Read(0),
    Call::Read(0),
    Call::Read(0),
    Call::Read(0),
    Call::Read(0),
    Call::Read(0),
    Call::Read(0),
    Call::Log,
    Call::Read(0),
    Call::Log,
    // three upset at once, and then two
    Call::Inject(0, 71),
    Call::Inject(0, 20),
    Call::Inject(0, 20),
    Call::Log,
    Call::Read(0),
    Call::Log,
    Call::Scrub(0),
    Call::Clear,
    Call::Log,
    // a merge that keeps nothing is a write
    Call::Merge(
        0,
        Word {
            low: 0xaa00,
            top: 0,
        },
        0,
    ),
    Call::Read(0),
    Call::Inject(0, 8),
    Call::Merge(0, Word { low: 0xbb, top: 0 }, 0x02),
    Call::Read(0),
    Call::Log,
    // arguments that are refused
    Call::Write(1, Word { low: 0, top: 1 }),
    Call::Read(1),
    Call::Merge(0, Word { low: 0, top: 1 }, 0xff),
    Call::Merge(0, Word { low: 0, top: 1 }, 0),
    Call::Inject(0, 72),
    Call::Inject(1, 200),
    Call::Read(128),
    Call::Scrub(0xffff),
    Call::Read(0),
    Call::Log,
];

// For a 32-bit unit with three places: lanes from 4 on do not exist.
pub const SHORT_WORDS: &[Call] = &[
    Call::Read(0),
    Call::Clear,
    Call::Write(
        2,
        Word {
            low: 0x1_0000_0000,
            top: 0,
        },
    ),
    Call::Inject(2, 0),
    Call::Write(
        2,
        Word {
            low: 0xdead_beef,
            top: 0,
        },
    ),
    Call::Read(2),
    Call::Inject(2, 38),
    Call::Merge(2, Word { low: 0xaa, top: 0 }, 0x1e),
    Call::Merge(
        2,
        Word {
            low: 0x1_0000_0000,
            top: 0,
        },
        0x0e,
    ),
    Call::Merge(2, Word { low: 0xaa, top: 0 }, 0x0e),
    Call::Read(2),
    Call::Log,
    Call::Inject(2, 39),
    Call::Inject(2, 31),
    Call::Inject(2, 32),
    Call::Read(2),
    Call::Merge(
        2,
        Word {
            low: 0x1234_5678,
            top: 0,
        },
        0x0f,
    ),
    Call::Log,
    Call::Inject(2, 31),
    Call::Merge(
        2,
        Word {
            low: 0x1234_5678,
            top: 0,
        },
        0x0f,
    ),
    Call::Read(2),
    Call::Write(3, Word { low: 1, top: 0 }),
    Call::Read(3),
    Call::Log,
];

// For a cascaded unit over a pair with 128 places: cells below 40 lie in the low card, the others in the high one.
pub const HALVES: &[Call] = &[
    Call::Read(1),
    Call::Inject(1, 0),
    Call::Log,
    Call::Write(
        1,
        Word {
            low: 0x0123_4567_89ab_cdef,
            top: 0,
        },
    ),
    Call::Clear,
    Call::Read(1),
    Call::Inject(1, 39),
    Call::Read(1),
    Call::Inject(1, 40),
    Call::Read(1),
    Call::Merge(1, Word { low: 0, top: 0 }, 0x80),
    Call::Log,
    Call::Inject(1, 39),
    Call::Scrub(1),
    Call::Inject(1, 0),
    Call::Inject(1, 32),
    Call::Inject(1, 64),
    Call::Read(1),
    Call::Log,
    Call::Write(1, Word { low: 7, top: 0 }),
    Call::Read(1),
    Call::Inject(1, 72),
];
