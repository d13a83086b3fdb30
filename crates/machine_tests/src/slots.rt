// Codes 3 and 4. A slot's number is the operand modulo 256, and the rest of it counts hops.
use crate::steps::{
    FULL, Halting, HaltingGroup, Moving, MovingGroup, PLAIN, STEP, Stuck, StuckGroup, all,
};
use machine::cells::Cell;
use machine::cells::Cell::{Link, Number, Truth, Unset};
use std::test::Fail;

// A program's frame with a slot of each mark, one working value, and one free cell.
const FOUR: &[Cell] = &[
    Link(0),
    Link(0),
    Link(0),
    Link(4),
    Number(-8),
    Truth(true),
    Unset,
    Link(2),
    Number(7),
    Truth(false),
];

// The same with a truth value on top.
const TRUTH: &[Cell] = &[
    Link(0),
    Link(0),
    Link(0),
    Link(4),
    Number(-8),
    Truth(true),
    Unset,
    Link(2),
    Truth(false),
];

// Three frames, each declared in the one below it, one slot each, and a working value.
const NESTED: &[Cell] = &[
    Link(0),
    Link(0),
    Link(0),
    Link(1),
    Number(10),
    Link(0),
    Link(0),
    Link(9),
    Link(1),
    Number(20),
    Link(5),
    Link(5),
    Link(7),
    Link(1),
    Number(30),
    Truth(true),
    Unset,
];

// Two frames at 5 and 10, both declared in the program.
const SIBLINGS: &[Cell] = &[
    Link(0),
    Link(0),
    Link(0),
    Link(1),
    Number(10),
    Link(0),
    Link(0),
    Link(9),
    Link(1),
    Number(20),
    Link(0),
    Link(5),
    Link(7),
    Link(0),
    Truth(true),
    Unset,
];

const COPIES: &[Moving] = &[
    (3, 0, (0, 9), FOUR, (2, 0, 10), &[(9, Number(-8))]),
    (3, 1, (0, 9), FOUR, (2, 0, 10), &[(9, Truth(true))]),
    (3, 1, (0, 8), FOUR, (2, 0, 9), &[(8, Truth(true))]),
    (3, 0, (10, 16), NESTED, (2, 10, 17), &[(16, Number(30))]),
    (3, 256, (10, 16), NESTED, (2, 10, 17), &[(16, Number(20))]),
    (3, 512, (10, 16), NESTED, (2, 10, 17), &[(16, Number(10))]),
    (3, 256, (10, 15), SIBLINGS, (2, 10, 16), &[(15, Number(10))]),
    (3, 256, (5, 10), NESTED, (2, 5, 11), &[(10, Number(10))]),
];

const STORES: &[Moving] = &[
    (4, 0, (0, 9), FOUR, (2, 0, 8), &[(4, Number(7))]),
    (4, 1, (0, 9), FOUR, (2, 0, 8), &[(5, Number(7))]),
    (4, 2, (0, 9), FOUR, (2, 0, 8), &[(6, Number(7))]),
    (4, 3, (0, 9), FOUR, (2, 0, 8), &[(7, Number(7))]),
    (4, 0, (0, 9), TRUTH, (2, 0, 8), &[(4, Truth(false))]),
    (4, 2, (0, 9), TRUTH, (2, 0, 8), &[(6, Truth(false))]),
    (4, 0, (10, 16), NESTED, (2, 10, 15), &[(14, Truth(true))]),
    (4, 256, (10, 16), NESTED, (2, 10, 15), &[(9, Truth(true))]),
    (4, 512, (10, 16), NESTED, (2, 10, 15), &[(4, Truth(true))]),
    (4, 256, (10, 15), SIBLINGS, (2, 10, 14), &[(4, Truth(true))]),
];

const STUCK: &[Stuck] = &[
    (&[3], 2, (0, 9), FOUR, 52),
    (&[3], 3, (0, 9), FOUR, 53),
    (&[3, 4], 4, (0, 9), FOUR, 54),
    (&[3, 4], 255, (0, 9), FOUR, 54),
    (&[3, 4], 256, (0, 9), FOUR, 54),
    (&[4], 0, (0, 8), FOUR, 54),
    // no room, and a slot that is unset, a link, or not there
    (&[3], 1, (0, 9), TRUTH, 43),
    (&[3], 2, (0, 9), TRUTH, 52),
    (&[3], 3, (0, 9), TRUTH, 53),
    (&[3], 4, (0, 9), TRUTH, 54),
    (&[3, 4], 257, (10, 16), NESTED, 54),
    (&[3, 4], 768, (10, 16), NESTED, 54),
];

const HALTS: &[Halting] = &[
    (&[3], 1, &[], 54),
    (&[3, 4], 4294967295, &[Number(1)], 54),
    (&[3, 4], 4294967040, &[Number(1)], 54),
    (&[4], 0, &[], 54),
    (&[4], 0, &[Unset], 52),
    (&[4], 0, &[Link(4)], 53),
    // a slot that is not there comes before the value
    (&[4], 1, &[Unset], 54),
    (&[4], 1, &[Link(4)], 54),
    (&[4], 256, &[Unset], 54),
];

const MOVING: &[MovingGroup] = &[(&[PLAIN], STEP, COPIES), (&[PLAIN], STEP, STORES)];

const STICKING: &[StuckGroup] = &[(&[PLAIN], STEP, STUCK)];

const HALTING: &[HaltingGroup] = &[(&[PLAIN, FULL], STEP, HALTS)];

#[test]
fn slots_are_copied_and_stored_into() -> Result<(), Fail> {
    all(MOVING)?;
    Ok(())
}

#[test]
fn slots_halt() -> Result<(), Fail> {
    all(STICKING)?;
    all(HALTING)?;
    Ok(())
}
