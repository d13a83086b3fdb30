// The own frame, tested at every step, and frames that hops reach: 54, before anything but 51.
use crate::steps::{Image, Moving, MovingGroup, PLAIN, STEP, Stuck, StuckGroup, all};
use language::values::ValueType;
use machine::cells::Cell;
use machine::cells::Cell::{Link, Number, Truth, Unset};
use std::test::Fail;

// All codes but 22. The operand 0 is lawful for each.
const ALL: &[u32] = &[
    1, 2, 3, 4, 5, 6, 7, 8, 9, 10, 11, 12, 13, 14, 15, 16, 17, 18, 19, 20, 21, 23, 24, 25, 26, 27,
];

const LINKS: &[Cell] = &[Link(0), Link(0), Link(0), Link(0)];

const BROKEN: &[Stuck] = &[
    (ALL, 0, (0, 0), &[], 54),
    (ALL, 0, (0, 0), LINKS, 54),
    (ALL, 0, (0, 3), LINKS, 54),
    (ALL, 0, (1, 4), LINKS, 54),
    (ALL, 0, (4, 4), LINKS, 54),
    (ALL, 0, (5, 4), LINKS, 54),
    (ALL, 0, (18446744073709551615, 4), LINKS, 54),
    (ALL, 0, (0, 4), &[Unset, Link(0), Link(0), Link(0)], 54),
    (ALL, 0, (0, 4), &[Link(0), Number(0), Link(0), Link(0)], 54),
    (
        ALL,
        0,
        (0, 4),
        &[Link(0), Link(0), Truth(true), Link(0)],
        54,
    ),
    (ALL, 0, (0, 4), &[Link(0), Link(0), Link(0), Number(0)], 54),
    // the slots pass the top: by one, and by far
    (
        ALL,
        0,
        (0, 4),
        &[Link(0), Link(0), Link(0), Link(1), Number(1), Number(2)],
        54,
    ),
    (
        ALL,
        0,
        (0, 6),
        &[Link(0), Link(0), Link(0), Link(3), Number(1), Number(2)],
        54,
    ),
    (
        ALL,
        0,
        (0, 6),
        &[
            Link(0),
            Link(0),
            Link(0),
            Link(4294967295),
            Number(1),
            Number(2),
        ],
        54,
    ),
    // and there are values in plenty, or unset ones
    (
        ALL,
        0,
        (0, 6),
        &[
            Link(0),
            Unset,
            Link(0),
            Link(0),
            Truth(true),
            Truth(true),
            Unset,
        ],
        54,
    ),
    (
        ALL,
        0,
        (0, 6),
        &[Link(0), Link(0), Link(0), Unset, Unset, Unset, Unset],
        54,
    ),
    (
        ALL,
        0,
        (1, 8),
        &[
            Link(0),
            Link(0),
            Link(0),
            Link(0),
            Number(1),
            Number(7),
            Number(7),
            Number(7),
        ],
        54,
    ),
    (
        ALL,
        0,
        (3, 8),
        &[
            Link(0),
            Link(0),
            Link(0),
            Link(0),
            Link(0),
            Link(0),
            Link(2),
            Number(7),
        ],
        54,
    ),
];

// A frame is right wherever it lies, and with nothing else around it.
const RIGHT: &[Moving] = &[
    (
        1,
        5,
        (0, 4),
        &[Link(0), Link(0), Link(0), Link(0), Unset],
        (2, 0, 5),
        &[(4, Number(5))],
    ),
    (18, 3, (0, 4), LINKS, (3, 0, 4), &[]),
    (
        2,
        1,
        (2, 7),
        &[
            Number(1),
            Unset,
            Link(9),
            Link(8),
            Link(7),
            Link(1),
            Unset,
            Unset,
        ],
        (2, 2, 8),
        &[(7, Truth(true))],
    ),
    (
        18,
        0,
        (3, 8),
        &[
            Link(0),
            Link(0),
            Link(0),
            Link(0),
            Link(0),
            Link(0),
            Link(1),
            Number(7),
        ],
        (0, 3, 8),
        &[],
    ),
    (
        16,
        0,
        (0, 6),
        &[Link(9), Link(9), Link(9), Link(1), Link(9), Truth(true)],
        (2, 0, 6),
        &[(5, Truth(false))],
    ),
];

// One hop from a frame at 6: the slots of the frame below end at 6; they reach to 7; the access link leads to the own base,
// too near, to no links, far off; the frame below has a cell that is no link.
const ENDS: &[Cell] = &[
    Link(0),
    Link(0),
    Link(0),
    Link(2),
    Number(1),
    Number(2),
    Link(0),
    Link(9),
    Link(9),
    Link(0),
    Number(7),
    Unset,
    Unset,
    Unset,
    Unset,
];

const REACHES: &[Cell] = &[
    Link(0),
    Link(0),
    Link(0),
    Link(3),
    Number(1),
    Number(2),
    Link(0),
    Link(0),
    Link(9),
    Link(0),
    Number(7),
    Unset,
    Unset,
    Unset,
    Unset,
];

const OWN: &[Cell] = &[
    Link(0),
    Link(0),
    Link(0),
    Link(2),
    Number(1),
    Number(2),
    Link(6),
    Link(0),
    Link(9),
    Link(0),
    Number(7),
    Unset,
    Unset,
    Unset,
    Unset,
];

const NEAR: &[Cell] = &[
    Link(0),
    Link(0),
    Link(0),
    Link(0),
    Link(0),
    Link(0),
    Link(3),
    Link(0),
    Link(9),
    Link(0),
    Number(7),
    Unset,
    Unset,
    Unset,
    Unset,
];

const UNLINKED: &[Cell] = &[
    Link(0),
    Link(0),
    Link(0),
    Link(0),
    Link(0),
    Number(2),
    Link(2),
    Link(0),
    Link(9),
    Link(0),
    Number(7),
    Unset,
    Unset,
    Unset,
    Unset,
];

const FAR: &[Cell] = &[
    Link(0),
    Link(0),
    Link(0),
    Link(2),
    Number(1),
    Number(2),
    Link(4294967295),
    Link(0),
    Link(9),
    Link(0),
    Number(7),
    Unset,
    Unset,
    Unset,
    Unset,
];

const BELOW: &[Cell] = &[
    Link(0),
    Truth(true),
    Link(0),
    Link(2),
    Number(1),
    Number(2),
    Link(0),
    Link(0),
    Link(9),
    Link(0),
    Unset,
    Unset,
    Unset,
    Unset,
    Unset,
];

const HOPS: &[Moving] = &[
    (3, 257, (6, 11), ENDS, (2, 6, 12), &[(11, Number(2))]),
    (4, 257, (6, 11), ENDS, (2, 6, 10), &[(5, Number(7))]),
    (
        20,
        1,
        (6, 11),
        ENDS,
        (2, 6, 15),
        &[(11, Link(0)), (12, Link(6)), (13, Link(0)), (14, Link(0))],
    ),
    // no hop is made, so no access link is looked at
    (
        20,
        0,
        (6, 11),
        FAR,
        (2, 6, 15),
        &[(11, Link(6)), (12, Link(6)), (13, Link(0)), (14, Link(0))],
    ),
];

const NO_HOPS: &[Stuck] = &[
    (&[3, 4], 258, (6, 11), ENDS, 54),
    (&[3, 4], 256, (6, 11), REACHES, 54),
    (&[20], 1, (6, 11), REACHES, 54),
    (&[3, 4], 256, (6, 11), OWN, 54),
    (&[20], 1, (6, 11), OWN, 54),
    (&[3, 4], 256, (6, 11), NEAR, 54),
    (&[20], 1, (6, 11), NEAR, 54),
    (&[3, 4], 256, (6, 11), UNLINKED, 54),
    (&[20], 1, (6, 11), UNLINKED, 54),
    (&[3, 4], 256, (6, 11), FAR, 54),
    (&[20], 1, (6, 11), FAR, 54),
    (&[3, 4], 256, (6, 11), BELOW, 54),
    (&[20], 1, (6, 11), BELOW, 54),
];

const TYPES: &[Image] = &[(1, ValueType::Int, 0), (1, ValueType::Void, 0)];

const STICKING: &[StuckGroup] = &[(&[PLAIN], TYPES, BROKEN), (&[PLAIN], STEP, NO_HOPS)];

const MOVING: &[MovingGroup] = &[(&[PLAIN], STEP, RIGHT), (&[PLAIN], STEP, HOPS)];

#[test]
fn frames_are_tested() -> Result<(), Fail> {
    all(STICKING)?;
    Ok(())
}

#[test]
fn frames_are_found() -> Result<(), Fail> {
    all(MOVING)?;
    Ok(())
}
