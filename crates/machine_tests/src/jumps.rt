// Codes 16 to 19: not, drop, and the two jumps. The image has four codes, 0 to 3.
use crate::steps::{FULL, Going, GoingGroup, Halting, HaltingGroup, PLAIN, STEP, all};
use machine::cells::Cell::{Link, Number, Truth, Unset};
use std::test::Fail;

const TURNS: &[Going] = &[
    (16, 0, &[Truth(false)], 2, &[Truth(true)]),
    (16, 0, &[Truth(true)], 2, &[Truth(false)]),
    (16, 0, &[Unset, Truth(true)], 2, &[Unset, Truth(false)]),
    (17, 0, &[Number(6)], 2, &[]),
    (17, 0, &[Truth(false)], 2, &[]),
    (17, 0, &[Link(2), Number(6)], 2, &[Link(2)]),
];

const TURN_HALTS: &[Halting] = &[
    (&[16, 17], 0, &[], 54),
    (&[16, 17], 0, &[Unset], 52),
    (&[16, 17], 0, &[Truth(true), Unset], 52),
    (&[16, 17], 0, &[Link(2)], 53),
    (&[16], 0, &[Number(1)], 53),
    (&[16, 17], 1, &[Truth(true)], 51),
    (&[16, 17], 4294967295, &[Truth(true)], 51),
    (&[16, 17], 1, &[], 51),
];

const JUMPS: &[Going] = &[
    (18, 0, &[], 0, &[]),
    (18, 1, &[], 1, &[]),
    (18, 2, &[], 2, &[]),
    (
        18,
        3,
        &[Unset, Link(1), Number(2)],
        3,
        &[Unset, Link(1), Number(2)],
    ),
    (19, 0, &[Truth(false)], 0, &[]),
    (19, 1, &[Truth(false)], 1, &[]),
    (19, 3, &[Truth(false)], 3, &[]),
    (19, 3, &[Unset, Truth(false)], 3, &[Unset]),
    (19, 0, &[Truth(true)], 2, &[]),
    (19, 1, &[Truth(true)], 2, &[]),
    (19, 3, &[Truth(true)], 2, &[]),
    (19, 3, &[Link(3), Truth(true)], 2, &[Link(3)]),
];

const JUMP_HALTS: &[Halting] = &[
    (&[18, 19], 4, &[Truth(false)], 51),
    (&[18, 19], 4, &[Truth(true)], 51),
    (&[18, 19], 4294967295, &[Truth(false)], 51),
    // an unlawful target, and too few cells or a wrong mark
    (&[19], 4, &[], 51),
    (&[19], 4, &[Unset], 51),
    (&[19], 3, &[], 54),
    (&[19], 3, &[Unset], 52),
    (&[19], 3, &[Number(0)], 53),
    (&[19], 3, &[Link(0)], 53),
    (&[19], 2, &[Truth(true), Number(1)], 53),
];

const GOING: &[GoingGroup] = &[(&[PLAIN, FULL], STEP, TURNS), (&[PLAIN, FULL], STEP, JUMPS)];

const HALTING: &[HaltingGroup] = &[
    (&[PLAIN, FULL], STEP, TURN_HALTS),
    (&[PLAIN, FULL], STEP, JUMP_HALTS),
];

#[test]
fn values_are_turned_dropped_and_jumped_on() -> Result<(), Fail> {
    all(GOING)?;
    Ok(())
}

#[test]
fn not_drop_and_jumps_halt() -> Result<(), Fail> {
    all(HALTING)?;
    Ok(())
}
