// Whole runs of small programs.
use crate::compared::{End, Stands};
use crate::runs::{Program, Script, play_all, run_all, run_all_in_pieces};
use crate::steps::HOST;
use host::one_line::OneLine;
use language::values::Value;
use machine::cells::Cell::{Link, Number, Truth, Unset};
use machine::registers::Machine;
use std::test::Fail;

// `1 + 2 * 3`
const SUM: &[u32] = &[7, 1, 22, 1, 1, 1, 5, 7, 27, 0, 1, 2, 3, 0, 0, 1];

// `int x; int f(int a) { a + x } x = 5; f(3)`
const ONE_HOP: &[u32] = &[
    13, 1, 22, 18, 22, 3, 3, 7, 23, 1, 4, 20, 1, 21, 27, 1, 7, 256, 0, 256, 0, 1, 5, 0, 0, 3, 2, 1,
];

// `int f(int n) { if (n < 2) { 1 } else { n * f(n - 1) } } f(5)`
const FACTORIAL: &[u32] = &[
    21, 1, 22, 18, 22, 3, 1, 9, 19, 1, 18, 3, 20, 3, 1, 8, 21, 5, 23, 20, 1, 21, 27, 0, 17, 256, 0,
    2, 0, 9, 1, 16, 0, 1, 0, 1, 0, 2, 0, 1, 0, 5, 2, 1,
];

// `post(3, amount(7)); post(3, 1);`
const POSTINGS: &[u32] = &[
    9, 0, 22, 1, 1, 24, 26, 1, 1, 26, 27, 0, 3, 7, 0, 0, 3, 1, 0, 0,
];

// `void f() { f(); } f();`
const ENDLESS: &[u32] = &[
    9, 0, 22, 18, 22, 20, 21, 23, 20, 21, 27, 0, 6, 0, 1, 2, 0, 0, 2, 0,
];

// A jump to itself.
const CIRCLE: &[u32] = &[2, 0, 22, 18, 0, 1];

// An end inside a function.
const INSIDE: &[u32] = &[6, 2, 22, 20, 21, 22, 2, 27, 0, 0, 3, 0, 1, 1];

// Runs out of its codes.
const NO_END: &[u32] = &[2, 1, 22, 1, 0, 4];

// The same, with more words after the image.
const LONGER: &[u32] = &[2, 1, 22, 1, 0, 4, 27, 27, 1, 1];

const NUMBER_7: Stands = Stands::Ended(End::With(Value::Number(7)));

const PROGRAMS: &[Program] = &[
    (SUM, 40, 100, 6, NUMBER_7),
    (SUM, 40, 6, 6, NUMBER_7),
    (SUM, 7, 6, 6, NUMBER_7),
    (SUM, 40, 5, 5, Stands::Paused),
    (SUM, 40, 0, 0, Stands::Paused),
    (SUM, 6, 100, 2, Stands::Halted(43, 3)),
    (SUM, 6, 3, 2, Stands::Halted(43, 3)),
    (SUM, 6, 2, 2, Stands::Paused),
    (SUM, 4, 100, 0, Stands::Halted(43, 1)),
    (SUM, 4, 0, 0, Stands::Paused),
    (
        ONE_HOP,
        40,
        100,
        11,
        Stands::Ended(End::With(Value::Number(8))),
    ),
    (
        ONE_HOP,
        12,
        100,
        11,
        Stands::Ended(End::With(Value::Number(8))),
    ),
    (ONE_HOP, 11, 100, 7, Stands::Halted(43, 4)),
    (
        FACTORIAL,
        40,
        100,
        60,
        Stands::Ended(End::With(Value::Number(120))),
    ),
    (ENDLESS, 40, 100, 19, Stands::Halted(43, 3)),
    (CIRCLE, 4, 100, 100, Stands::Paused),
    (CIRCLE, 4, 1000000, 1000000, Stands::Paused),
    (
        INSIDE,
        40,
        100,
        4,
        Stands::Ended(End::With(Value::Truth(true))),
    ),
    (NO_END, 40, 100, 1, Stands::Halted(51, 2)),
    (NO_END, 40, 1, 1, Stands::Paused),
    (LONGER, 40, 100, 1, Stands::Halted(51, 2)),
    (POSTINGS, 40, 100, 6, Stands::Halted(46, 7)),
];

// A return alone.
const RETURN: &[u32] = &[2, 0, 22, 23, 0, 0];

const USED: OneLine = OneLine {
    field: 7,
    amount: 12,
    flag: true,
    account: 3,
    posted: Some(40),
};

const CLOSED: OneLine = OneLine {
    field: 7,
    amount: 12,
    flag: true,
    account: 4,
    posted: None,
};

const SCRIPTS: &[Script] = &[
    // a call and a return, and what they leave above the top
    Script {
        words: ONE_HOP,
        cells: &[
            Unset,
            Unset,
            Unset,
            Unset,
            Unset,
            Unset,
            Unset,
            Unset,
            Unset,
            Unset,
            Unset,
            Unset,
            Truth(true),
        ],
        host: HOST,
        start: None,
        pieces: &[(100, 11, Stands::Ended(End::With(Value::Number(8))))],
        machine: Machine {
            counter: 12,
            base: 0,
            top: 6,
        },
        left: &[
            Link(0),
            Link(0),
            Link(0),
            Link(1),
            Number(5),
            Number(8),
            Link(0),
            Link(12),
            Link(1),
            Number(3),
            Number(8),
            Number(5),
            Truth(true),
        ],
        posted: None,
    },
    // a stop waits for an allowance, and comes again at every one after it
    Script {
        words: SUM,
        cells: &[
            Truth(true),
            Truth(true),
            Truth(true),
            Truth(true),
            Truth(true),
            Truth(true),
        ],
        host: HOST,
        start: None,
        pieces: &[
            (2, 2, Stands::Paused),
            (0, 0, Stands::Paused),
            (1, 0, Stands::Halted(43, 3)),
            (0, 0, Stands::Paused),
            (100, 0, Stands::Halted(43, 3)),
        ],
        machine: Machine {
            counter: 3,
            base: 0,
            top: 6,
        },
        left: &[Link(0), Link(0), Link(0), Link(0), Number(1), Number(2)],
        posted: None,
    },
    // the second posting finds no line, and the total stays
    Script {
        words: POSTINGS,
        cells: &[Unset, Unset, Unset, Unset, Unset, Unset, Link(1)],
        host: HOST,
        start: None,
        pieces: &[
            (4, 4, Stands::Paused),
            (100, 2, Stands::Halted(46, 7)),
            (5, 0, Stands::Halted(46, 7)),
        ],
        machine: Machine {
            counter: 7,
            base: 0,
            top: 6,
        },
        left: &[
            Link(0),
            Link(0),
            Link(0),
            Link(0),
            Number(3),
            Number(1),
            Link(1),
        ],
        posted: Some(-250),
    },
    // no line is left from the beginning, or the account is closed
    Script {
        words: POSTINGS,
        cells: &[Unset, Unset, Unset, Unset, Unset, Unset],
        host: USED,
        start: None,
        pieces: &[(100, 3, Stands::Halted(46, 4))],
        machine: Machine {
            counter: 4,
            base: 0,
            top: 6,
        },
        left: &[Link(0), Link(0), Link(0), Link(0), Number(3), Number(12)],
        posted: Some(40),
    },
    Script {
        words: POSTINGS,
        cells: &[Unset, Unset, Unset, Unset, Unset, Unset],
        host: CLOSED,
        start: None,
        pieces: &[(100, 3, Stands::Halted(46, 4))],
        machine: Machine {
            counter: 4,
            base: 0,
            top: 6,
        },
        left: &[Link(0), Link(0), Link(0), Link(0), Number(3), Number(12)],
        posted: None,
    },
    // a return counter past the last code is judged at the next step
    Script {
        words: RETURN,
        cells: &[
            Link(0),
            Link(0),
            Link(0),
            Link(0),
            Link(0),
            Link(0),
            Link(2),
            Link(0),
        ],
        host: HOST,
        start: Some(Machine {
            counter: 1,
            base: 4,
            top: 8,
        }),
        pieces: &[
            (1, 1, Stands::Paused),
            (0, 0, Stands::Paused),
            (1, 0, Stands::Halted(51, 2)),
        ],
        machine: Machine {
            counter: 2,
            base: 0,
            top: 4,
        },
        left: &[
            Link(0),
            Link(0),
            Link(0),
            Link(0),
            Link(0),
            Link(0),
            Link(2),
            Link(0),
        ],
        posted: None,
    },
];

#[test]
fn programs_run() -> Result<(), Fail> {
    run_all(PROGRAMS)?;
    Ok(())
}

#[test]
fn runs_in_pieces_are_whole_runs() -> Result<(), Fail> {
    run_all_in_pieces(PROGRAMS)?;
    Ok(())
}

#[test]
fn runs_leave_what_they_should() -> Result<(), Fail> {
    play_all(SCRIPTS)?;
    Ok(())
}
