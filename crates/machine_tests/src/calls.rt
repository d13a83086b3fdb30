// Codes 20 and 21. A call with p parameters wants four links under p arguments, above the own slots.
use crate::steps::{
    FULL, Going, GoingGroup, Halting, HaltingGroup, Image, Moving, MovingGroup, PLAIN, STEP, Stuck,
    StuckGroup, all,
};
use language::values::ValueType;
use machine::cells::Cell;
use machine::cells::Cell::{Link, Number, Truth, Unset};
use std::test::Fail;

// Frames at 0, 5 and 10, each declared in the one below it, and four free cells.
const NESTED: &[Cell] = &[
    Link(0),
    Link(0),
    Link(0),
    Link(1),
    Number(10),
    Link(0),
    Link(0),
    Link(9),
    Link(1),
    Number(20),
    Link(5),
    Link(5),
    Link(7),
    Link(1),
    Number(30),
    Unset,
    Truth(true),
    Number(4),
    Link(1),
];

const OPENS: &[Moving] = &[
    (
        20,
        0,
        (10, 15),
        NESTED,
        (2, 10, 19),
        &[(15, Link(10)), (16, Link(10)), (17, Link(0)), (18, Link(0))],
    ),
    (
        20,
        1,
        (10, 15),
        NESTED,
        (2, 10, 19),
        &[(15, Link(5)), (16, Link(10)), (17, Link(0)), (18, Link(0))],
    ),
    (
        20,
        2,
        (10, 15),
        NESTED,
        (2, 10, 19),
        &[(15, Link(0)), (16, Link(10)), (17, Link(0)), (18, Link(0))],
    ),
    (
        20,
        0,
        (5, 10),
        NESTED,
        (2, 5, 14),
        &[(10, Link(5)), (11, Link(5)), (12, Link(0)), (13, Link(0))],
    ),
    (
        20,
        1,
        (5, 10),
        NESTED,
        (2, 5, 14),
        &[(10, Link(0)), (11, Link(5)), (12, Link(0)), (13, Link(0))],
    ),
];

const OPENS_OVER_VALUES: &[Going] = &[
    (20, 0, &[], 2, &[Link(0), Link(0), Link(0), Link(0)]),
    (
        20,
        0,
        &[Unset, Number(1)],
        2,
        &[Unset, Number(1), Link(0), Link(0), Link(0), Link(0)],
    ),
];

const OPEN_STUCK: &[Stuck] = &[
    (&[20], 3, (10, 15), NESTED, 54),
    (&[20], 4294967295, (10, 15), NESTED, 54),
    (&[20], 1, (0, 5), NESTED, 54),
    (&[20], 0, (10, 16), NESTED, 43),
    (&[20], 2, (10, 19), NESTED, 43),
    // no frame is that far off, and there is no room
    (&[20], 3, (10, 16), NESTED, 54),
    (&[20], 3, (10, 19), NESTED, 54),
];

// Four links over a slot, whatever they say, and one free cell.
const OPENED: &[Cell] = &[
    Link(0),
    Link(0),
    Link(0),
    Link(1),
    Number(99),
    Link(77),
    Link(88),
    Link(55),
    Link(66),
    Truth(true),
];

// A working value, four links, two arguments, and four free cells.
const TWO: &[Cell] = &[
    Link(0),
    Link(0),
    Link(0),
    Link(1),
    Number(99),
    Number(8),
    Link(0),
    Link(0),
    Link(55),
    Link(66),
    Number(1),
    Truth(true),
    Number(1),
    Link(2),
    Truth(false),
    Number(5),
];

// The same with three free cells, and with two.
const TWO_EXACT: &[Cell] = &[
    Link(0),
    Link(0),
    Link(0),
    Link(1),
    Number(99),
    Number(8),
    Link(0),
    Link(0),
    Link(55),
    Link(66),
    Number(1),
    Truth(true),
    Number(1),
    Link(2),
    Truth(false),
];

const TWO_SHORT: &[Cell] = &[
    Link(0),
    Link(0),
    Link(0),
    Link(1),
    Number(99),
    Number(8),
    Link(0),
    Link(0),
    Link(55),
    Link(66),
    Number(1),
    Truth(true),
    Number(1),
    Link(2),
];

const CALLS_0_0: &[Moving] = &[
    (
        21,
        2,
        (0, 9),
        OPENED,
        (3, 5, 9),
        &[(7, Link(2)), (8, Link(0))],
    ),
    (
        21,
        0,
        (0, 9),
        OPENED,
        (1, 5, 9),
        &[(7, Link(2)), (8, Link(0))],
    ),
    (
        21,
        2,
        (0, 10),
        TWO,
        (3, 6, 10),
        &[(8, Link(2)), (9, Link(0))],
    ),
];

const CALLS_0_1: &[Moving] = &[
    (
        21,
        2,
        (0, 9),
        OPENED,
        (3, 5, 10),
        &[(7, Link(2)), (8, Link(1)), (9, Unset)],
    ),
    (
        21,
        0,
        (0, 9),
        OPENED,
        (1, 5, 9),
        &[(7, Link(2)), (8, Link(0))],
    ),
];

const CALLS_1_0: &[Moving] = &[
    (
        21,
        2,
        (0, 10),
        OPENED,
        (3, 5, 10),
        &[(7, Link(2)), (8, Link(1))],
    ),
    (
        21,
        2,
        (0, 11),
        TWO,
        (3, 6, 11),
        &[(8, Link(2)), (9, Link(1))],
    ),
];

const CALLS_2_3: &[Moving] = &[
    (
        21,
        2,
        (0, 12),
        TWO,
        (3, 6, 15),
        &[
            (8, Link(2)),
            (9, Link(5)),
            (12, Unset),
            (13, Unset),
            (14, Unset),
        ],
    ),
    (
        21,
        2,
        (0, 12),
        TWO_EXACT,
        (3, 6, 15),
        &[
            (8, Link(2)),
            (9, Link(5)),
            (12, Unset),
            (13, Unset),
            (14, Unset),
        ],
    ),
];

// From the frame at 5, which is not the program's.
const CALLS_INNER: &[Moving] = &[(
    21,
    2,
    (5, 15),
    NESTED,
    (3, 10, 18),
    &[
        (12, Link(2)),
        (13, Link(4)),
        (15, Unset),
        (16, Unset),
        (17, Unset),
    ],
)];

const UNLAWFUL: &[Halting] = &[
    (&[21], 1, &[Link(0), Link(0), Link(0), Link(0)], 51),
    (&[21], 3, &[Link(0), Link(0), Link(0), Link(0)], 51),
    (&[21], 4, &[Link(0), Link(0), Link(0), Link(0)], 51),
    (&[21], 4294967295, &[Link(0), Link(0), Link(0), Link(0)], 51),
    // and there are no links
    (&[21], 3, &[], 51),
];

const NO_LINKS: &[Halting] = &[
    (&[21], 2, &[], 54),
    (&[21], 2, &[Link(0)], 54),
    (&[21], 2, &[Link(0), Link(0), Link(0)], 54),
    (&[21], 2, &[Number(0), Link(0), Link(0), Link(0)], 54),
    (&[21], 2, &[Link(0), Unset, Link(0), Link(0)], 54),
    (&[21], 2, &[Link(0), Link(0), Truth(true), Link(0)], 54),
    (&[21], 2, &[Link(0), Link(0), Link(0), Number(0)], 54),
    (
        &[21],
        2,
        &[Link(0), Link(0), Link(0), Link(0), Number(1)],
        54,
    ),
];

// Two parameters.
const ARGUMENTS: &[Halting] = &[
    (
        &[21],
        2,
        &[Link(0), Link(0), Link(0), Link(0), Number(1)],
        54,
    ),
    (
        &[21],
        2,
        &[Number(9), Link(0), Link(0), Link(0), Number(1), Number(2)],
        54,
    ),
    (
        &[21],
        2,
        &[Link(0), Link(0), Link(0), Link(0), Unset, Number(1)],
        52,
    ),
    (
        &[21],
        2,
        &[Link(0), Link(0), Link(0), Link(0), Number(1), Unset],
        52,
    ),
    (
        &[21],
        2,
        &[Link(0), Link(0), Link(0), Link(0), Link(1), Number(1)],
        53,
    ),
    (
        &[21],
        2,
        &[Link(0), Link(0), Link(0), Link(0), Truth(true), Link(1)],
        53,
    ),
    (
        &[21],
        2,
        &[Link(0), Link(0), Link(0), Link(0), Link(1), Link(1)],
        53,
    ),
    // one is unset, and the other is a link
    (
        &[21],
        2,
        &[Link(0), Link(0), Link(0), Link(0), Link(1), Unset],
        52,
    ),
    (
        &[21],
        2,
        &[Link(0), Link(0), Link(0), Link(0), Unset, Link(1)],
        52,
    ),
    // there are no four links, and the arguments are unset or links
    (
        &[21],
        2,
        &[Link(0), Link(0), Link(0), Truth(true), Unset, Unset],
        54,
    ),
    (
        &[21],
        2,
        &[Unset, Link(0), Link(0), Link(0), Number(1), Unset],
        54,
    ),
    (
        &[21],
        2,
        &[Link(0), Link(0), Number(0), Link(0), Link(0), Link(0)],
        54,
    ),
    (&[21], 2, &[Link(0), Link(0), Link(0), Unset, Unset], 54),
];

const ROOM: &[Halting] = &[
    (
        &[21],
        2,
        &[Link(0), Link(0), Link(0), Link(0), Number(1), Truth(true)],
        43,
    ),
    (
        &[21],
        2,
        &[
            Unset,
            Link(0),
            Link(0),
            Link(0),
            Link(0),
            Number(1),
            Truth(true),
        ],
        43,
    ),
];

const NO_LINKS_STUCK: &[Stuck] = &[
    // links, but in the own slots
    (
        &[21],
        2,
        (0, 8),
        &[
            Link(0),
            Link(0),
            Link(0),
            Link(4),
            Link(0),
            Link(0),
            Link(0),
            Link(0),
        ],
        54,
    ),
    (
        &[21],
        2,
        (0, 8),
        &[
            Link(0),
            Link(0),
            Link(0),
            Link(1),
            Link(0),
            Link(0),
            Link(0),
            Link(0),
        ],
        54,
    ),
    (&[21], 2, (0, 4), &[Link(0), Link(0), Link(0), Link(0)], 54),
    (&[21], 2, (0, 12), TWO, 54),
];

const SHORT_STUCK: &[Stuck] = &[(&[21], 2, (0, 12), TWO_SHORT, 43)];

const OPENING: &[MovingGroup] = &[(&[PLAIN], STEP, OPENS)];

const OPENING_OVER_VALUES: &[GoingGroup] = &[(&[PLAIN], STEP, OPENS_OVER_VALUES)];

// Entries by their parameters and their other slots.
const ENTRY_0_1: &[Image] = &[(1, ValueType::Int, 1)];

const ENTRY_1_0: &[Image] = &[(1, ValueType::Int, 256)];

const ENTRY_1_3: &[Image] = &[(1, ValueType::Int, 259)];

const ENTRY_2_3: &[Image] = &[(1, ValueType::Int, 515)];

// None, one and 255 other slots.
const ENTRIES_2: &[Image] = &[
    (1, ValueType::Int, 512),
    (1, ValueType::Int, 513),
    (1, ValueType::Int, 767),
];

// Five and 255 other slots.
const WIDE_2: &[Image] = &[(1, ValueType::Int, 517), (1, ValueType::Int, 767)];

// No parameter, and as many as an operand can tell of.
const ANY: &[Image] = &[
    (1, ValueType::Int, 0),
    (1, ValueType::Int, 255),
    (1, ValueType::Int, 4294967295),
];

const CALLING: &[MovingGroup] = &[
    (&[PLAIN], STEP, CALLS_0_0),
    (&[PLAIN], ENTRY_0_1, CALLS_0_1),
    (&[PLAIN], ENTRY_1_0, CALLS_1_0),
    (&[PLAIN], ENTRY_2_3, CALLS_2_3),
    (&[PLAIN], ENTRY_1_3, CALLS_INNER),
];

const HALTING: &[HaltingGroup] = &[
    (&[PLAIN, FULL], ANY, UNLAWFUL),
    (&[PLAIN, FULL], ANY, NO_LINKS),
    (&[PLAIN, FULL], ENTRIES_2, ARGUMENTS),
    (&[PLAIN, FULL], WIDE_2, ROOM),
];

const STICKING: &[StuckGroup] = &[
    (&[PLAIN], STEP, OPEN_STUCK),
    (&[PLAIN], ANY, NO_LINKS_STUCK),
    (&[PLAIN], ENTRY_2_3, SHORT_STUCK),
];

#[test]
fn calls_are_opened() -> Result<(), Fail> {
    all(OPENING)?;
    all(OPENING_OVER_VALUES)?;
    Ok(())
}

#[test]
fn calls_enter() -> Result<(), Fail> {
    all(CALLING)?;
    Ok(())
}

#[test]
fn calls_halt() -> Result<(), Fail> {
    all(HALTING)?;
    all(STICKING)?;
    Ok(())
}
