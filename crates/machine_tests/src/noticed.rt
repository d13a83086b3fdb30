// A wrong expectation is noticed, whatever part it is wrong in.
use crate::compared::{End, Mismatch, Stands};
use crate::runs::{Program, run_all};
use crate::steps::{
    EndingGroup, GoingGroup, HaltingGroup, MovingGroup, PLAIN, PostingGroup, STEP, StuckGroup, all,
};
use language::values::Value;
use machine::cells::Cell;
use machine::cells::Cell::{Link, Number, Truth, Unset};

// Whether this part was found to differ.
fn notices(part: &str, outcome: Result<(), Mismatch>) -> bool {
    outcome.is_err_and(|mismatch| mismatch.difference.part == part)
}

const GOING: &[(&str, &[GoingGroup])] = &[
    (
        "counter",
        &[(&[PLAIN], STEP, &[(1, 5, &[], 3, &[Number(5)])])],
    ),
    ("top", &[(&[PLAIN], STEP, &[(1, 5, &[], 2, &[])])]),
    ("cell", &[(&[PLAIN], STEP, &[(1, 5, &[], 2, &[Number(6)])])]),
    (
        "mark of a cell",
        &[(&[PLAIN], STEP, &[(1, 1, &[], 2, &[Truth(true)])])],
    ),
    (
        "cell",
        &[(
            &[PLAIN],
            STEP,
            &[(5, 0, &[Number(6), Number(7)], 2, &[Number(13)])],
        )],
    ),
    (
        "kind of end",
        &[(
            &[PLAIN],
            STEP,
            &[(6, 0, &[Number(1), Number(0)], 2, &[Number(0)])],
        )],
    ),
    (
        "kind of end",
        &[(&[PLAIN], STEP, &[(27, 1, &[Number(1)], 2, &[Number(1)])])],
    ),
    (
        "postings",
        &[(&[PLAIN], STEP, &[(26, 0, &[Number(3), Number(1)], 2, &[])])],
    ),
];

const HALTING: &[(&str, &[HaltingGroup])] = &[
    (
        "number at the end",
        &[(&[PLAIN], STEP, &[(&[6], 0, &[Number(1), Number(0)], 42)])],
    ),
    (
        "number at the end",
        &[(&[PLAIN], STEP, &[(&[28], 0, &[], 54)])],
    ),
    (
        "kind of end",
        &[(&[PLAIN], STEP, &[(&[28, 1], 0, &[], 51)])],
    ),
    (
        "kind of end",
        &[(&[PLAIN], STEP, &[(&[27], 1, &[Number(1)], 53)])],
    ),
];

const ENDING: &[(&str, &[EndingGroup])] = &[
    (
        "number at the end",
        &[(
            &[PLAIN],
            STEP,
            &[(1, &[Number(1)], End::With(Value::Number(2)))],
        )],
    ),
    (
        "mark at the end",
        &[(
            &[PLAIN],
            STEP,
            &[(1, &[Number(1)], End::With(Value::Truth(true)))],
        )],
    ),
    (
        "mark at the end",
        &[(&[PLAIN], STEP, &[(1, &[Number(0)], End::Nothing)])],
    ),
    (
        "kind of end",
        &[(&[PLAIN], STEP, &[(0, &[], End::Nothing)])],
    ),
];

const CELLS: &[Cell] = &[
    Link(0),
    Link(0),
    Link(0),
    Link(1),
    Number(9),
    Truth(true),
    Unset,
];

const MOVING: &[(&str, &[MovingGroup])] = &[
    (
        "base",
        &[(
            &[PLAIN],
            STEP,
            &[(1, 5, (0, 6), CELLS, (2, 1, 7), &[(6, Number(5))])],
        )],
    ),
    (
        "top",
        &[(
            &[PLAIN],
            STEP,
            &[(1, 5, (0, 6), CELLS, (2, 0, 6), &[(6, Number(5))])],
        )],
    ),
    (
        "cell",
        &[(
            &[PLAIN],
            STEP,
            &[(
                1,
                5,
                (0, 6),
                CELLS,
                (2, 0, 7),
                &[(4, Number(8)), (6, Number(5))],
            )],
        )],
    ),
    // above the new top
    (
        "mark of a cell",
        &[(
            &[PLAIN],
            STEP,
            &[(17, 0, (0, 6), CELLS, (2, 0, 5), &[(5, Unset)])],
        )],
    ),
    // the top is past the cells
    (
        "row",
        &[(&[PLAIN], STEP, &[(1, 5, (0, 8), CELLS, (2, 0, 9), &[])])],
    ),
];

const TOTAL: &[PostingGroup] = &[(&[PLAIN], STEP, &[(&[Number(3), Number(1)], 2)])];

const FRAME: &[StuckGroup] = &[(&[PLAIN], STEP, &[(&[18], 0, (0, 6), CELLS, 54)])];

const SUM: &[u32] = &[7, 1, 22, 1, 1, 1, 5, 7, 27, 0, 1, 2, 3, 0, 0, 1];

const RUNS: &[(&str, &[Program])] = &[
    (
        "steps",
        &[(SUM, 10, 100, 5, Stands::Ended(End::With(Value::Number(7))))],
    ),
    (
        "number at the end",
        &[(SUM, 10, 100, 6, Stands::Ended(End::With(Value::Number(8))))],
    ),
    ("kind of end", &[(SUM, 10, 100, 6, Stands::Paused)]),
    ("kind of end", &[(SUM, 10, 5, 5, Stands::Halted(43, 6))]),
    ("steps", &[(SUM, 10, 5, 6, Stands::Paused)]),
    ("place", &[(SUM, 6, 100, 2, Stands::Halted(43, 4))]),
    (
        "number at the end",
        &[(SUM, 6, 100, 2, Stands::Halted(54, 3))],
    ),
    ("row", &[(SUM, 3, 100, 0, Stands::Paused)]),
];

// The first row that is not noticed.
fn going_unnoticed() -> Option<usize> {
    for (number, row) in GOING.iter().enumerate() {
        if !notices(row.0, all(row.1)) {
            return Some(number);
        }
    }
    None
}

fn halting_unnoticed() -> Option<usize> {
    for (number, row) in HALTING.iter().enumerate() {
        if !notices(row.0, all(row.1)) {
            return Some(number);
        }
    }
    None
}

fn ending_unnoticed() -> Option<usize> {
    for (number, row) in ENDING.iter().enumerate() {
        if !notices(row.0, all(row.1)) {
            return Some(number);
        }
    }
    None
}

fn moving_unnoticed() -> Option<usize> {
    for (number, row) in MOVING.iter().enumerate() {
        if !notices(row.0, all(row.1)) {
            return Some(number);
        }
    }
    None
}

fn runs_unnoticed() -> Option<usize> {
    for (number, row) in RUNS.iter().enumerate() {
        if !notices(row.0, run_all(row.1)) {
            return Some(number);
        }
    }
    None
}

#[test]
fn wrong_steps_are_noticed(rt: HostRuntime) {
    assert_eq!(rt; going_unnoticed(), None);
    assert_eq!(rt; moving_unnoticed(), None);
    assert!(rt; notices("total", all(TOTAL)));
}

#[test]
fn wrong_ends_are_noticed(rt: HostRuntime) {
    assert_eq!(rt; halting_unnoticed(), None);
    assert_eq!(rt; ending_unnoticed(), None);
    assert!(rt; notices("kind of end", all(FRAME)));
}

#[test]
fn wrong_runs_are_noticed(rt: HostRuntime) {
    assert_eq!(rt; runs_unnoticed(), None);
}
