// Codes 5 to 15, with the right operand on top.
use crate::steps::{FULL, Going, GoingGroup, Halting, HaltingGroup, PLAIN, STEP, all};
use machine::cells::Cell;
use machine::cells::Cell::{Link, Number, Truth, Unset};
use std::test::Fail;

const LEAST: Cell = Number(-2147483648);

const MOST: Cell = Number(2147483647);

const PRODUCTS: &[Going] = &[
    (5, 0, &[Number(6), Number(7)], 2, &[Number(42)]),
    (5, 0, &[Number(-3), Number(4)], 2, &[Number(-12)]),
    (5, 0, &[Number(-3), Number(-4)], 2, &[Number(12)]),
    (
        5,
        0,
        &[Number(46341), Number(46340)],
        2,
        &[Number(2147441940)],
    ),
    (5, 0, &[Number(-65536), Number(32768)], 2, &[LEAST]),
    (5, 0, &[LEAST, Number(0)], 2, &[Number(0)]),
    (
        5,
        0,
        &[Unset, Link(2), Number(1), LEAST],
        2,
        &[Unset, Link(2), LEAST],
    ),
];

const QUOTIENTS: &[Going] = &[
    (6, 0, &[Number(7), Number(2)], 2, &[Number(3)]),
    (6, 0, &[Number(-7), Number(2)], 2, &[Number(-3)]),
    (6, 0, &[Number(7), Number(-2)], 2, &[Number(-3)]),
    (6, 0, &[Number(-7), Number(-2)], 2, &[Number(3)]),
    (6, 0, &[Number(-1), Number(2)], 2, &[Number(0)]),
    (6, 0, &[Number(0), Number(5)], 2, &[Number(0)]),
    (6, 0, &[Number(2), Number(7)], 2, &[Number(0)]),
    (6, 0, &[LEAST, Number(1)], 2, &[LEAST]),
    (6, 0, &[LEAST, LEAST], 2, &[Number(1)]),
    (6, 0, &[MOST, Number(-1)], 2, &[Number(-2147483647)]),
    (
        6,
        0,
        &[Truth(true), Number(8), Number(3)],
        2,
        &[Truth(true), Number(2)],
    ),
];

const SUMS: &[Going] = &[
    (7, 0, &[Number(2), Number(3)], 2, &[Number(5)]),
    (7, 0, &[LEAST, MOST], 2, &[Number(-1)]),
    (7, 0, &[MOST, Number(0)], 2, &[MOST]),
    (7, 0, &[Number(-2147483647), Number(-1)], 2, &[LEAST]),
    (
        7,
        0,
        &[Link(9), Number(1), Number(1)],
        2,
        &[Link(9), Number(2)],
    ),
    (8, 0, &[Number(5), Number(7)], 2, &[Number(-2)]),
    (8, 0, &[Number(7), Number(5)], 2, &[Number(2)]),
    (8, 0, &[Number(-1), LEAST], 2, &[MOST]),
    (8, 0, &[LEAST, LEAST], 2, &[Number(0)]),
];

const ORDERS: &[Going] = &[
    (9, 0, &[Number(-2), Number(3)], 2, &[Truth(true)]),
    (9, 0, &[Number(3), Number(3)], 2, &[Truth(false)]),
    (9, 0, &[Number(3), Number(-2)], 2, &[Truth(false)]),
    (9, 0, &[LEAST, MOST], 2, &[Truth(true)]),
    (10, 0, &[Number(-2), Number(3)], 2, &[Truth(true)]),
    (10, 0, &[Number(3), Number(3)], 2, &[Truth(true)]),
    (10, 0, &[Number(3), Number(-2)], 2, &[Truth(false)]),
    (10, 0, &[LEAST, MOST], 2, &[Truth(true)]),
    (11, 0, &[Number(-2), Number(3)], 2, &[Truth(false)]),
    (11, 0, &[Number(3), Number(3)], 2, &[Truth(false)]),
    (11, 0, &[Number(3), Number(-2)], 2, &[Truth(true)]),
    (11, 0, &[LEAST, MOST], 2, &[Truth(false)]),
    (12, 0, &[Number(-2), Number(3)], 2, &[Truth(false)]),
    (12, 0, &[Number(3), Number(3)], 2, &[Truth(true)]),
    (12, 0, &[Number(3), Number(-2)], 2, &[Truth(true)]),
    (12, 0, &[LEAST, MOST], 2, &[Truth(false)]),
];

const EQUALS: &[Going] = &[
    (13, 0, &[Number(4), Number(4)], 2, &[Truth(true)]),
    (13, 0, &[Number(4), Number(-4)], 2, &[Truth(false)]),
    (13, 0, &[LEAST, LEAST], 2, &[Truth(true)]),
    (13, 0, &[Truth(true), Truth(true)], 2, &[Truth(true)]),
    (13, 0, &[Truth(false), Truth(false)], 2, &[Truth(true)]),
    (13, 0, &[Truth(true), Truth(false)], 2, &[Truth(false)]),
    (13, 0, &[Truth(false), Truth(true)], 2, &[Truth(false)]),
    (
        13,
        0,
        &[Unset, Number(1), Number(2)],
        2,
        &[Unset, Truth(false)],
    ),
];

const CONNECTIVES: &[Going] = &[
    (14, 0, &[Truth(false), Truth(false)], 2, &[Truth(false)]),
    (14, 0, &[Truth(false), Truth(true)], 2, &[Truth(false)]),
    (14, 0, &[Truth(true), Truth(false)], 2, &[Truth(false)]),
    (14, 0, &[Truth(true), Truth(true)], 2, &[Truth(true)]),
    (15, 0, &[Truth(false), Truth(false)], 2, &[Truth(false)]),
    (15, 0, &[Truth(false), Truth(true)], 2, &[Truth(true)]),
    (15, 0, &[Truth(true), Truth(false)], 2, &[Truth(true)]),
    (15, 0, &[Truth(true), Truth(true)], 2, &[Truth(true)]),
];

const ALL: &[u32] = &[5, 6, 7, 8, 9, 10, 11, 12, 13, 14, 15];

const ON_NUMBERS: &[u32] = &[5, 6, 7, 8, 9, 10, 11, 12];

// What is wrong with the operands of any operator.
const OPERANDS: &[Halting] = &[
    (ALL, 1, &[Number(1), Number(2)], 51),
    (ALL, 4294967295, &[Truth(true), Truth(true)], 51),
    (ALL, 1, &[], 51),
    (ALL, 0, &[], 54),
    (ALL, 0, &[Number(1)], 54),
    (ALL, 0, &[Unset], 54),
    (ALL, 0, &[Number(1), Unset], 52),
    (ALL, 0, &[Unset, Number(1)], 52),
    (ALL, 0, &[Unset, Unset], 52),
    // one is unset, and the other has a wrong mark
    (ALL, 0, &[Link(1), Unset], 52),
    (ALL, 0, &[Unset, Link(1)], 52),
    (ALL, 0, &[Link(1), Number(1)], 53),
    (ALL, 0, &[Truth(true), Link(1)], 53),
    (ALL, 0, &[Link(1), Link(1)], 53),
    (ALL, 0, &[Number(1), Truth(true)], 53),
    (ALL, 0, &[Truth(true), Number(1)], 53),
];

const MARKS: &[Halting] = &[
    (ON_NUMBERS, 0, &[Truth(true), Truth(true)], 53),
    (ON_NUMBERS, 0, &[Truth(true), Unset], 52),
    (ON_NUMBERS, 0, &[Unset, Truth(true)], 52),
    (&[14, 15], 0, &[Number(1), Number(1)], 53),
    (&[14, 15], 0, &[Unset, Number(0)], 52),
];

const RESULTS: &[Halting] = &[
    (&[5], 0, &[Number(46341), Number(46341)], 42),
    (&[5], 0, &[Number(65536), Number(32768)], 42),
    (&[5], 0, &[LEAST, Number(-1)], 42),
    (&[5], 0, &[LEAST, LEAST], 42),
    (&[6], 0, &[Number(5), Number(0)], 41),
    (&[6], 0, &[Number(0), Number(0)], 41),
    (&[6], 0, &[LEAST, Number(0)], 41),
    (&[6], 0, &[LEAST, Number(-1)], 42),
    // the divisor is 0, and an operand is of a wrong mark or unset
    (&[6], 0, &[Truth(true), Number(0)], 53),
    (&[6], 0, &[Link(3), Number(0)], 53),
    (&[6], 0, &[Unset, Number(0)], 52),
    (&[7], 0, &[MOST, Number(1)], 42),
    (&[7], 0, &[LEAST, Number(-1)], 42),
    (&[7], 0, &[MOST, MOST], 42),
    (&[8], 0, &[LEAST, Number(1)], 42),
    (&[8], 0, &[Number(0), LEAST], 42),
    (&[8], 0, &[MOST, Number(-1)], 42),
];

const GOING: &[GoingGroup] = &[
    (&[PLAIN, FULL], STEP, PRODUCTS),
    (&[PLAIN, FULL], STEP, QUOTIENTS),
    (&[PLAIN, FULL], STEP, SUMS),
    (&[PLAIN, FULL], STEP, ORDERS),
    (&[PLAIN, FULL], STEP, EQUALS),
    (&[PLAIN, FULL], STEP, CONNECTIVES),
];

const HALTING: &[HaltingGroup] = &[
    (&[PLAIN, FULL], STEP, OPERANDS),
    (&[PLAIN, FULL], STEP, MARKS),
    (&[PLAIN, FULL], STEP, RESULTS),
];

#[test]
fn operators_are_applied() -> Result<(), Fail> {
    all(GOING)?;
    Ok(())
}

#[test]
fn operators_halt() -> Result<(), Fail> {
    all(HALTING)?;
    Ok(())
}
