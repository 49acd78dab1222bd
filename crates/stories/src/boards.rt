// The stories: lines, the answers that the rules make of them, and why.

// A line, the answer to it, and the reason.
pub struct Step<'a> {
    pub line: &'a str,
    pub expected: &'a str,
    pub why: &'a str,
}

// The steps of one board, in order.
pub struct Story<'a> {
    pub title: &'a str,
    pub steps: &'a [Step<'a>],
}

// A reading that corrects a check cell and stores nothing.
const STILL_UPSET: Step<'static> = Step {
    line: "R 0005\n",
    expected: "= 0000000000000003\n",
    why: "the check cell is still upset",
};

// One word through the orders of flips, scrubs and refused partial writes.
pub const HARD_ORDERS: Story<'static> = Story {
    title: "64-bit unit over the built-in card",
    steps: &[
        Step {
            line: "W 0005 00000000000000ff\n",
            expected: "ok\n",
            why: "in hand from now on, no cell upset",
        },
        Step {
            line: "I 0005 00\n",
            expected: "ok\n",
            why: "data cell 0 upset",
        },
        Step {
            line: "S 0005\n",
            expected: "ok\n",
            why: "put right and written back: none upset",
        },
        Step {
            line: "L\n",
            expected: "= 81ce0006\n",
            why: "one single error, syndrome ce, check bits 06",
        },
        Step {
            line: "I 0005 00\n",
            expected: "ok\n",
            why: "one upset",
        },
        Step {
            line: "I 0005 01\n",
            expected: "ok\n",
            why: "two upset",
        },
        Step {
            line: "S 0005\n",
            expected: "! 5 0005 00 0000\n",
            why: "two upset: refused, nothing stored",
        },
        Step {
            line: "M 0005 fe 0000000000000011\n",
            expected: "! 5 0005 00 0000\n",
            why: "a partial write between two flips is refused too",
        },
        Step {
            line: "I 0005 00\n",
            expected: "ok\n",
            why: "cell 0 was hit twice: one upset again",
        },
        Step {
            line: "R 0005\n",
            expected: "= 00000000000000ff\n",
            why: "one upset: the last word stored",
        },
        Step {
            line: "M 0005 fe 0000000000000011\n",
            expected: "ok\n",
            why: "lane 0 from the line, the others kept; none upset",
        },
        Step {
            line: "R 0005\n",
            expected: "= 0000000000000011\n",
            why: "lanes 1 to 7 were zero and stayed so",
        },
        Step {
            line: "I 0005 00\n",
            expected: "ok\n",
            why: "one upset",
        },
        Step {
            line: "I 0005 01\n",
            expected: "ok\n",
            why: "two upset",
        },
        Step {
            line: "I 0005 02\n",
            expected: "ok\n",
            why: "three upset: out of hand",
        },
        Step {
            line: "R 0005\n",
            expected: "= 0000000000000006\n",
            why: "ce, cb and d3 add up to d6, the column of cell 4: a false word, as nothing is owed here",
        },
        Step {
            line: "W 0005 0000000000000003\n",
            expected: "ok\n",
            why: "in hand again",
        },
        Step {
            line: "I 0005 47\n",
            expected: "ok\n",
            why: "the highest check cell alone is upset",
        },
        Step {
            line: "R 0005\n",
            expected: "= 0000000000000003\n",
            why: "the data are sound",
        },
        Step {
            line: "L\n",
            expected: "= 87800089\n",
            why: "seven errors by now, syndrome 80, check bits 09 with the top one flipped",
        },
        Step {
            line: "F\n",
            expected: "= 0005 06 00000000000000fe\n",
            why: "the first error stays while later ones come",
        },
        Step {
            line: "C\n",
            expected: "ok\n",
            why: "the log is new",
        },
        Step {
            line: "L\n",
            expected: "= 00000000\n",
            why: "nothing taken since",
        },
        Step {
            line: "F\n",
            expected: "none\n",
            why: "no error since",
        },
        STILL_UPSET,
        STILL_UPSET,
        STILL_UPSET,
        STILL_UPSET,
        STILL_UPSET,
        STILL_UPSET,
        STILL_UPSET,
        STILL_UPSET,
        STILL_UPSET,
        STILL_UPSET,
        STILL_UPSET,
        STILL_UPSET,
        STILL_UPSET,
        STILL_UPSET,
        STILL_UPSET,
        STILL_UPSET,
        Step {
            line: "L\n",
            expected: "= 8f800089\n",
            why: "sixteen errors, held at fifteen",
        },
        Step {
            line: "I 0005 48\n",
            expected: "! 4 0005 00 0000\n",
            why: "a raw word has 72 cells, 00 to 47",
        },
        Step {
            line: "R 0080\n",
            expected: "! 1 0080 00 0000\n",
            why: "the card has 128 places",
        },
    ],
};

// Each refusal of a unit, with place, depth and way.
pub const NARROW: Story<'static> = Story {
    title: "32-bit unit over a byte card of 30 bytes",
    steps: &[
        Step {
            line: "R 0003\n",
            expected: "! 1 0003 00 0000\n",
            why: "30 bytes hold three words of nine",
        },
        Step {
            line: "W 0000 0000000100000000\n",
            expected: "! 2 0000 00 0000\n",
            why: "2^32 does not fit",
        },
        Step {
            line: "M 0000 10 0000000000000000\n",
            expected: "! 3 0000 00 0000\n",
            why: "there are four lanes",
        },
        Step {
            line: "I 0000 27\n",
            expected: "! 4 0000 00 0000\n",
            why: "a raw word has 39 cells",
        },
        Step {
            line: "M 0000 0f 0000000000000000\n",
            expected: "! 5 0000 00 0000\n",
            why: "raw zeros have syndrome 0c, which is even",
        },
        Step {
            line: "I 0000 26\n",
            expected: "ok\n",
            why: "the last cell: the highest check bit",
        },
        Step {
            line: "R 0000\n",
            expected: "! 6 0000 00 0000\n",
            why: "4c is odd and no cell's",
        },
        Step {
            line: "W 0001 00000000deadbeef\n",
            expected: "ok\n",
            why: "",
        },
        Step {
            line: "M 0001 0e 00000000000000aa\n",
            expected: "ok\n",
            why: "lane 0 from the line",
        },
        Step {
            line: "R 0001\n",
            expected: "= 00000000deadbeaa\n",
            why: "",
        },
        Step {
            line: "I 0001 00\n",
            expected: "ok\n",
            why: "",
        },
        Step {
            line: "R 0001\n",
            expected: "= 00000000deadbeaa\n",
            why: "put right",
        },
        Step {
            line: "L\n",
            expected: "= 834f0007\n",
            why: "three errors, the latest single with the column of cell 0",
        },
    ],
};

// Faults that come up through a pair.
pub const CASCADE: Story<'static> = Story {
    title: "cascaded unit over a pair: odd parity below, a 32-bit unit above",
    steps: &[
        Step {
            line: "R 0000\n",
            expected: "! 7 0000 02 0000\n",
            why: "the low card's fault: raw zeros have even parity; up through the pair and the unit",
        },
        Step {
            line: "W 0000 0123456789abcdef\n",
            expected: "ok\n",
            why: "",
        },
        Step {
            line: "R 0000\n",
            expected: "= 0123456789abcdef\n",
            why: "",
        },
        Step {
            line: "I 0000 20\n",
            expected: "ok\n",
            why: "cell 32 upset",
        },
        Step {
            line: "R 0000\n",
            expected: "= 0123456789abcdef\n",
            why: "put right",
        },
        Step {
            line: "L\n",
            expected: "= 814f120c\n",
            why: "syndrome 4f, the lower slice's partial 12, check bits 0c",
        },
        Step {
            line: "R 0001\n",
            expected: "! 7 0001 02 0000\n",
            why: "place 1 was never written",
        },
        Step {
            line: "R 0080\n",
            expected: "! 1 0080 00 0000\n",
            why: "the unit's own refusal",
        },
    ],
};

// Faults that come up from the high side, and flips in both halves.
pub const HALVES: Story<'static> = Story {
    title: "cascaded unit over a pair over byte cards: even parity below, odd parity above",
    steps: &[
        Step {
            line: "R 0000\n",
            expected: "! 7 0000 02 0001\n",
            why: "the high card's fault: raw zeros have even parity; up through the pair and the unit, from the high side",
        },
        Step {
            line: "W 0000 0123456789abcdef\n",
            expected: "ok\n",
            why: "",
        },
        Step {
            line: "R 0000\n",
            expected: "= 0123456789abcdef\n",
            why: "",
        },
        Step {
            line: "I 0000 28\n",
            expected: "ok\n",
            why: "cell 40, the lowest of the high half",
        },
        Step {
            line: "R 0000\n",
            expected: "= 0123456789abcdef\n",
            why: "put right",
        },
        Step {
            line: "I 0000 00\n",
            expected: "ok\n",
            why: "cell 0, the lowest of the low half",
        },
        Step {
            line: "R 0000\n",
            expected: "! 5 0000 00 0000\n",
            why: "two upset, one in each half: the unit's own refusal",
        },
        Step {
            line: "R 0002\n",
            expected: "! 1 0002 00 0000\n",
            why: "both byte cards have two places",
        },
    ],
};

// A unit below a unit.
pub const NESTED: Story<'static> = Story {
    title: "16-bit unit over a pair whose low card is a 16-bit unit",
    steps: &[
        Step {
            line: "R 0000\n",
            expected: "= 0000000000000000\n",
            why: "zeros are a codeword of the 16-bit code",
        },
        Step {
            line: "W 0000 000000000000ffff\n",
            expected: "ok\n",
            why: "",
        },
        Step {
            line: "I 0000 00\n",
            expected: "ok\n",
            why: "the lower unit stores the flipped word afresh",
        },
        Step {
            line: "R 0000\n",
            expected: "= 000000000000ffff\n",
            why: "so only the upper unit meets an error",
        },
        Step {
            line: "L\n",
            expected: "= 8138003c\n",
            why: "one single error, column 38, check bits 3c",
        },
        Step {
            line: "I 0000 01\n",
            expected: "ok\n",
            why: "cells 0 and 1 upset",
        },
        Step {
            line: "R 0000\n",
            expected: "! 5 0000 00 0000\n",
            why: "two upset",
        },
        Step {
            line: "S 0000\n",
            expected: "! 5 0000 00 0000\n",
            why: "and nothing stored",
        },
    ],
};
