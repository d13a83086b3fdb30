// Codes 1 and 2.
use crate::steps::{
    FULL, Going, GoingGroup, Ground, HOST, Halting, HaltingGroup, PLAIN, STEP, all,
};
use machine::cells::Cell::{Link, Number, Truth, Unset};
use std::test::Fail;

// One cell is free: the top may reach the number of cells.
const ONE_FREE: Ground = Ground {
    above: &[Link(8)],
    host: HOST,
};

const PUSHES: &[Going] = &[
    (1, 0, &[], 2, &[Number(0)]),
    (1, 5, &[Number(9)], 2, &[Number(9), Number(5)]),
    (
        1,
        2147483647,
        &[Truth(true)],
        2,
        &[Truth(true), Number(2147483647)],
    ),
    (1, 1, &[Unset], 2, &[Unset, Number(1)]),
    (2, 0, &[], 2, &[Truth(false)]),
    (2, 1, &[], 2, &[Truth(true)]),
    (2, 1, &[Link(3)], 2, &[Link(3), Truth(true)]),
];

const UNLAWFUL: &[Halting] = &[
    (&[1], 2147483648, &[], 51),
    (&[1], 4294967295, &[Number(1)], 51),
    (&[2], 2, &[], 51),
    (&[2], 4294967295, &[Number(1)], 51),
];

const NO_ROOM: &[Halting] = &[
    (&[1, 2], 1, &[], 43),
    (&[1, 2], 0, &[Number(1), Truth(true)], 43),
];

const GOING: &[GoingGroup] = &[(&[PLAIN, ONE_FREE], STEP, PUSHES)];

const HALTING: &[HaltingGroup] = &[(&[PLAIN, FULL], STEP, UNLAWFUL), (&[FULL], STEP, NO_ROOM)];

#[test]
fn literals_are_pushed() -> Result<(), Fail> {
    all(GOING)?;
    Ok(())
}

#[test]
fn literals_halt() -> Result<(), Fail> {
    all(HALTING)?;
    Ok(())
}
