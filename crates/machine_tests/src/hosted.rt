// Codes 24, 25 and 26, over a host with the field 7, the account 3 and one line.
use crate::steps::{
    FULL, Going, GoingGroup, Ground, Halting, HaltingGroup, PLAIN, Posting, PostingGroup, STEP, all,
};
use host::one_line::OneLine;
use machine::cells::Cell::{Link, Number, Truth, Unset};
use std::test::Fail;

// The last field and account, and nothing but an amount and a flag of no size.
const LAST: Ground = Ground {
    host: OneLine {
        field: 255,
        amount: 0,
        flag: false,
        account: 255,
        posted: None,
    },
    above: &[],
};

// The one line is used up.
const USED: Ground = Ground {
    host: OneLine {
        field: 7,
        amount: 12,
        flag: true,
        account: 3,
        posted: Some(40),
    },
    above: &[],
};

const ASKED: &[Going] = &[
    (24, 0, &[Number(7)], 2, &[Number(-250)]),
    (24, 0, &[Unset, Number(7)], 2, &[Unset, Number(-250)]),
    (25, 0, &[Number(7)], 2, &[Truth(true)]),
    (25, 0, &[Link(1), Number(7)], 2, &[Link(1), Truth(true)]),
];

const ASKED_LAST: &[Going] = &[
    (24, 0, &[Number(255)], 2, &[Number(0)]),
    (25, 0, &[Number(255)], 2, &[Truth(false)]),
];

const ASKED_USED: &[Going] = &[
    (24, 0, &[Number(7)], 2, &[Number(12)]),
    (25, 0, &[Number(7)], 2, &[Truth(true)]),
];

const NOT_ASKED: &[Halting] = &[
    (&[24, 25], 0, &[], 54),
    (&[24, 25], 0, &[Unset], 52),
    (&[24, 25], 0, &[Number(7), Unset], 52),
    (&[24, 25], 0, &[Truth(true)], 53),
    (&[24, 25], 0, &[Link(7)], 53),
    // out of range, and nothing there; 263 and −249 would be 7 in 8 bits
    (&[24, 25], 0, &[Number(256)], 44),
    (&[24, 25], 0, &[Number(-1)], 44),
    (&[24, 25], 0, &[Number(263)], 44),
    (&[24, 25], 0, &[Number(-249)], 44),
    (&[24, 25], 0, &[Number(2147483647)], 44),
    (&[24, 25], 0, &[Number(-2147483648)], 44),
    (&[24, 25], 0, &[Number(0)], 45),
    (&[24, 25], 0, &[Number(6)], 45),
    (&[24, 25], 0, &[Number(255)], 45),
    (&[24, 25], 1, &[Number(7)], 51),
    (&[24, 25], 4294967295, &[], 51),
];

const POSTED: &[Posting] = &[
    (&[Number(3), Number(40)], 40),
    (&[Number(3), Number(0)], 0),
    (&[Number(3), Number(-2147483648)], -2147483648),
    (&[Number(3), Number(2147483647)], 2147483647),
    (&[Number(3), Number(3)], 3),
];

const POSTED_LAST: &[Posting] = &[(&[Number(255), Number(-1)], -1)];

const NOT_POSTED: &[Halting] = &[
    (&[26], 0, &[], 54),
    (&[26], 0, &[Number(3)], 54),
    (&[26], 0, &[Unset], 54),
    (&[26], 0, &[Unset, Number(40)], 52),
    (&[26], 0, &[Number(3), Unset], 52),
    // one is unset, and the other is no number
    (&[26], 0, &[Truth(true), Unset], 52),
    (&[26], 0, &[Unset, Link(1)], 52),
    (&[26], 0, &[Truth(true), Number(40)], 53),
    (&[26], 0, &[Number(3), Truth(true)], 53),
    (&[26], 0, &[Link(3), Number(40)], 53),
    (&[26], 0, &[Number(3), Link(40)], 53),
    // an account out of range, and a value of a wrong mark
    (&[26], 0, &[Number(256), Truth(true)], 53),
    (&[26], 0, &[Number(256), Number(40)], 44),
    (&[26], 0, &[Number(-1), Number(40)], 44),
    (&[26], 0, &[Number(259), Number(40)], 44),
    (&[26], 0, &[Number(-253), Number(40)], 44),
    (&[26], 0, &[Number(4), Number(40)], 46),
    (&[26], 1, &[Number(3), Number(40)], 51),
    (&[26], 1, &[], 51),
];

// No line is left; for the account 4 it is closed too.
const REFUSED: &[Halting] = &[
    (&[26], 0, &[Number(3), Number(1)], 46),
    (&[26], 0, &[Number(3), Number(0)], 46),
    (&[26], 0, &[Number(4), Number(1)], 46),
    (&[26], 0, &[Number(300), Number(1)], 44),
];

const ASKING: &[GoingGroup] = &[
    (&[PLAIN, FULL], STEP, ASKED),
    (&[LAST], STEP, ASKED_LAST),
    (&[USED], STEP, ASKED_USED),
];

const POSTING: &[PostingGroup] = &[(&[PLAIN, FULL], STEP, POSTED), (&[LAST], STEP, POSTED_LAST)];

const HALTING: &[HaltingGroup] = &[
    (&[PLAIN, FULL, USED], STEP, NOT_ASKED),
    (&[PLAIN, FULL, USED], STEP, NOT_POSTED),
    (&[USED], STEP, REFUSED),
];

#[test]
fn hosts_are_asked() -> Result<(), Fail> {
    all(ASKING)?;
    Ok(())
}

#[test]
fn hosts_take_postings() -> Result<(), Fail> {
    all(POSTING)?;
    Ok(())
}

#[test]
fn asking_and_posting_halt() -> Result<(), Fail> {
    all(HALTING)?;
    Ok(())
}
