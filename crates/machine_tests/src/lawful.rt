// What is no lawful instruction: 51, before anything else.
use crate::steps::{FULL, Halting, HaltingGroup, Image, PLAIN, STEP, Stuck, StuckGroup, all};
use language::values::ValueType;
use machine::cells::Cell::{Link, Number, Truth, Unset};
use std::test::Fail;

// All codes but 22.
const ALL: &[u32] = &[
    1, 2, 3, 4, 5, 6, 7, 8, 9, 10, 11, 12, 13, 14, 15, 16, 17, 18, 19, 20, 21, 23, 24, 25, 26, 27,
];

// Their operand must be 0.
const BARE: &[u32] = &[5, 6, 7, 8, 9, 10, 11, 12, 13, 14, 15, 16, 17, 24, 25, 26];

// No codes at all, and the one that is only ever called.
const NONE: &[u32] = &[0, 28, 29, 255, 256, 65536, 2147483648, 4294967295, 22];

const CODES: &[Halting] = &[
    (NONE, 0, &[], 51),
    (NONE, 1, &[Number(1)], 51),
    (NONE, 256, &[Unset], 51),
    (NONE, 2, &[Link(0), Link(0), Link(0), Link(0)], 51),
    (NONE, 4294967295, &[Truth(true), Truth(false)], 51),
];

const OPERANDS: &[Halting] = &[
    (BARE, 1, &[Number(7), Number(1)], 51),
    (BARE, 256, &[Truth(true), Truth(true)], 51),
    (BARE, 4294967295, &[], 51),
    (BARE, 2147483648, &[Unset], 51),
    (&[1], 2147483648, &[], 51),
    (&[1], 4294967295, &[], 51),
    (&[2, 23, 27], 2, &[Number(1)], 51),
    (&[2, 23, 27], 256, &[Unset], 51),
    (&[2, 23, 27], 4294967295, &[], 51),
    (&[18, 19, 21], 4, &[Link(0), Link(0), Link(0), Link(0)], 51),
    (&[18, 19, 21], 4294967295, &[], 51),
    (&[21], 1, &[], 51),
];

// Nothing is looked at past the last code.
const PAST: &[Halting] = &[
    (ALL, 0, &[], 51),
    (ALL, 1, &[Number(1)], 51),
    (ALL, 2, &[Unset], 51),
];

// No instruction, and no frame either.
const NO_FRAME: &[Stuck] = &[
    (NONE, 0, (0, 0), &[], 51),
    (BARE, 1, (0, 3), &[Link(0), Link(0), Link(0), Link(0)], 51),
    (
        &[2, 23, 27],
        2,
        (0, 4),
        &[Unset, Link(0), Link(0), Link(0)],
        51,
    ),
    (
        &[18, 19, 21],
        4,
        (9, 4),
        &[Link(0), Link(0), Link(0), Link(0)],
        51,
    ),
    (
        &[1],
        2147483648,
        (0, 4),
        &[Link(0), Link(0), Link(0), Link(1)],
        51,
    ),
];

// The image has four codes, with a 22 at 0 and at 2.
const COUNTERS: &[Image] = &[
    (4, ValueType::Int, 0),
    (5, ValueType::Bool, 256),
    (2147483648, ValueType::Void, 0),
    (4294967295, ValueType::Int, 0),
    (0, ValueType::Int, 0),
    (2, ValueType::Int, 0),
    (2, ValueType::Void, 257),
];

const HALTING: &[HaltingGroup] = &[
    (&[PLAIN, FULL], STEP, CODES),
    (&[PLAIN, FULL], STEP, OPERANDS),
    (&[PLAIN, FULL], COUNTERS, PAST),
];

const STICKING: &[StuckGroup] = &[(&[PLAIN], STEP, NO_FRAME)];

#[test]
fn instructions_are_judged() -> Result<(), Fail> {
    all(HALTING)?;
    all(STICKING)?;
    Ok(())
}
