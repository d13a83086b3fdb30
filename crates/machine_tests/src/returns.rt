// Code 23.
use crate::steps::{
    FULL, Halting, HaltingGroup, Moving, MovingGroup, PLAIN, STEP, Stuck, StuckGroup, all,
};
use machine::cells::Cell;
use machine::cells::Cell::{Link, Number, Truth, Unset};
use std::test::Fail;

// Frames at 0, 5 and 10. The last is declared in the program and called from the frame at 5.
const CALLED: &[Cell] = &[
    Link(0),
    Link(0),
    Link(0),
    Link(1),
    Number(10),
    Link(0),
    Link(0),
    Link(9),
    Link(1),
    Number(20),
    Link(0),
    Link(5),
    Link(4294967295),
    Link(1),
    Number(30),
    Number(42),
    Truth(false),
    Unset,
    Link(6),
];

const RETURNS: &[Moving] = &[
    (23, 0, (10, 15), CALLED, (4294967295, 5, 10), &[]),
    (23, 0, (10, 16), CALLED, (4294967295, 5, 10), &[]),
    // values that are unset or links are not looked at
    (23, 0, (10, 18), CALLED, (4294967295, 5, 10), &[]),
    (23, 0, (10, 19), CALLED, (4294967295, 5, 10), &[]),
    (23, 0, (5, 10), CALLED, (9, 0, 5), &[]),
    (
        23,
        1,
        (10, 16),
        CALLED,
        (4294967295, 5, 11),
        &[(10, Number(42))],
    ),
    (
        23,
        1,
        (10, 17),
        CALLED,
        (4294967295, 5, 11),
        &[(10, Truth(false))],
    ),
    (23, 1, (5, 17), CALLED, (9, 0, 6), &[(5, Truth(false))]),
];

const STUCK: &[Stuck] = &[
    (&[23], 1, (10, 15), CALLED, 54),
    (&[23], 1, (10, 18), CALLED, 52),
    (&[23], 1, (10, 19), CALLED, 53),
    (&[23], 1, (5, 10), CALLED, 54),
    (&[23], 1, (5, 11), CALLED, 53),
    (&[23], 2, (10, 16), CALLED, 51),
    (&[23], 4294967295, (10, 15), CALLED, 51),
    (&[23], 0, (0, 5), CALLED, 54),
    (&[23], 1, (0, 16), CALLED, 54),
];

// In the program's frame, whatever lies on top.
const IN_PROGRAM: &[Halting] = &[
    (&[23], 0, &[], 54),
    (&[23], 1, &[], 54),
    (&[23], 1, &[Number(1)], 54),
    (&[23], 1, &[Unset], 54),
    (&[23], 1, &[Link(0)], 54),
    (&[23], 2, &[Number(1)], 51),
];

// The caller's base is the own one, lies above it, or far off; the caller's slots reach too far; it is not made of links.
const OWN: &[Cell] = &[
    Link(0),
    Link(0),
    Link(0),
    Link(0),
    Link(0),
    Link(4),
    Link(9),
    Link(0),
    Unset,
];

const ABOVE: &[Cell] = &[
    Link(0),
    Link(0),
    Link(0),
    Link(0),
    Link(0),
    Link(8),
    Link(9),
    Link(0),
    Number(1),
];

const FAR: &[Cell] = &[
    Link(0),
    Link(0),
    Link(0),
    Link(0),
    Link(0),
    Link(4294967295),
    Link(9),
    Link(0),
    Number(1),
];

const MIDST: &[Cell] = &[
    Link(0),
    Link(0),
    Link(0),
    Link(0),
    Link(0),
    Link(1),
    Link(9),
    Link(0),
    Number(1),
];

const REACHING: &[Cell] = &[
    Link(0),
    Link(0),
    Link(0),
    Link(1),
    Link(0),
    Link(0),
    Link(9),
    Link(0),
    Unset,
];

const UNLINKED: &[Cell] = &[
    Link(0),
    Link(0),
    Number(0),
    Link(0),
    Link(0),
    Link(0),
    Link(9),
    Link(0),
    Link(1),
];

const RIGHT: &[Cell] = &[
    Link(0),
    Link(0),
    Link(0),
    Link(0),
    Link(7),
    Link(0),
    Link(9),
    Link(0),
    Number(1),
];

const NO_CALLER: &[Stuck] = &[
    (&[23], 0, (4, 9), OWN, 54),
    (&[23], 1, (4, 9), OWN, 54),
    (&[23], 0, (4, 9), ABOVE, 54),
    (&[23], 1, (4, 9), ABOVE, 54),
    (&[23], 0, (4, 9), FAR, 54),
    (&[23], 1, (4, 9), FAR, 54),
    (&[23], 0, (4, 9), MIDST, 54),
    (&[23], 1, (4, 9), MIDST, 54),
    (&[23], 0, (4, 9), REACHING, 54),
    (&[23], 1, (4, 9), REACHING, 54),
    (&[23], 0, (4, 9), UNLINKED, 54),
    (&[23], 1, (4, 9), UNLINKED, 54),
];

// The access link plays no part.
const ANY_ACCESS: &[Moving] = &[
    (23, 0, (4, 9), RIGHT, (9, 0, 4), &[]),
    (23, 1, (4, 9), RIGHT, (9, 0, 5), &[(4, Number(1))]),
];

const MOVING: &[MovingGroup] = &[(&[PLAIN], STEP, RETURNS), (&[PLAIN], STEP, ANY_ACCESS)];

const STICKING: &[StuckGroup] = &[(&[PLAIN], STEP, STUCK), (&[PLAIN], STEP, NO_CALLER)];

const HALTING: &[HaltingGroup] = &[(&[PLAIN, FULL], STEP, IN_PROGRAM)];

#[test]
fn calls_return() -> Result<(), Fail> {
    all(MOVING)?;
    Ok(())
}

#[test]
fn returns_halt() -> Result<(), Fail> {
    all(STICKING)?;
    all(HALTING)?;
    Ok(())
}
