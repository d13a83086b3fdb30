// How a run begins.
use crate::compared::{Difference, UNFIT, same, same_cells, same_machine};
use language::faults::Cause;
use machine::cells::Cell;
use machine::cells::Cell::{Link, Number, Truth, Unset};
use machine::registers::Machine;
use std::test::Fail;

const BEFORE: [Cell; 8] = [
    Unset,
    Number(4),
    Truth(true),
    Link(9),
    Number(5),
    Truth(false),
    Link(6),
    Number(7),
];

// Others, and the cells after the beginning, as many as there were.
const BEGUN: &[(u32, &[Cell])] = &[
    (0, &[Link(0), Link(0), Link(0), Link(0)]),
    (
        0,
        &[Link(0), Link(0), Link(0), Link(0), Number(5), Truth(false)],
    ),
    (2, &[Link(0), Link(0), Link(0), Link(2), Unset, Unset]),
    (
        2,
        &[
            Link(0),
            Link(0),
            Link(0),
            Link(2),
            Unset,
            Unset,
            Link(6),
            Number(7),
        ],
    ),
    (
        4,
        &[
            Link(0),
            Link(0),
            Link(0),
            Link(4),
            Unset,
            Unset,
            Unset,
            Unset,
        ],
    ),
];

// Others, and a number of cells that is too small for them.
const REFUSED: &[(u32, usize)] = &[(0, 0), (0, 3), (1, 4), (4, 7), (255, 8), (4294967295, 8)];

fn begins(others: u32, cells: &mut [Cell], expected: &[Cell]) -> Result<(), Difference> {
    let machine = Machine::begin(others, cells).map_err(|_| UNFIT)?;
    let begun = Machine {
        counter: 1,
        base: 0,
        top: 4 + others as usize,
    };
    same_machine(begun, machine)?;
    same_cells(expected, cells)
}

fn all_begin() -> Result<(), Difference> {
    for row in BEGUN {
        let (others, expected) = *row;
        let count = expected.len();
        if count > 8 {
            return Err(UNFIT);
        }
        let mut cells = BEFORE;
        begins(others, &mut cells[0..count], expected)?;
    }
    Ok(())
}

fn refuses(others: u32, cells: &mut [Cell], kept: &[Cell]) -> Result<(), Difference> {
    let Err(refusal) = Machine::begin(others, cells) else {
        return Err(UNFIT);
    };
    same("refusal", 32, i128::from(Cause::Begin(refusal).number()))?;
    same_cells(kept, cells)
}

fn all_are_refused() -> Result<(), Difference> {
    for row in REFUSED {
        let (others, count) = *row;
        if count > 8 {
            return Err(UNFIT);
        }
        let mut cells = BEFORE;
        refuses(others, &mut cells[0..count], &BEFORE[0..count])?;
    }
    Ok(())
}

#[test]
fn runs_begin() -> Result<(), Fail> {
    all_begin()?;
    Ok(())
}

#[test]
fn runs_want_cells() -> Result<(), Fail> {
    all_are_refused()?;
    Ok(())
}

#[test]
fn runs_want_at_most_65_536_cells(rt: HostRuntime) -> Result<(), Fail> {
    let mut cells = vec![in rt.alloc(); Number(1); 65_537]?;
    assert!(rt; Machine::begin(0, &mut cells).is_err());
    let mut cells = vec![in rt.alloc(); Number(1); 65_536]?;
    assert!(rt; Machine::begin(0, &mut cells).is_ok());
    Ok(())
}
