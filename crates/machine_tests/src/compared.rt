// What the machine left, held against what is expected of it.
use host::one_line::OneLine;
use language::faults::{Cause, Halt};
use language::values::Value;
use machine::cells::Cell;
use machine::registers::{Flow, Machine, Outcome};

// Two numbers that should be the same, the code that was tried, the part that they tell of, and its cell, if it is one.
#[derive(Clone, Copy, PartialEq, Eq, Debug)]
pub struct Difference {
    pub code: u32,
    pub part: &'static str,
    pub cell: usize,
    pub expected: i128,
    pub seen: i128,
}

// A difference in a table: the group and the row, numbered from 0.
#[derive(Clone, Copy, PartialEq, Eq, Debug)]
pub struct Mismatch {
    pub group: usize,
    pub row: usize,
    pub difference: Difference,
}

// What a step comes to.
// Stays an enum of its own, and so does how a run stands: the rows of the tests were written down in their words, with the numbers of halts.
#[derive(Clone, Copy, PartialEq, Eq, Debug)]
pub enum End {
    Next,
    Nothing,
    With(Value),
    Halt(u8),
}

// A row that cannot be tried: it has too many cells, or the machine's needs are not met.
pub const UNFIT: Difference = Difference {
    code: 0,
    part: "row",
    cell: 0,
    expected: 0,
    seen: 0,
};

pub fn in_row(group: usize, row: usize, outcome: Result<(), Difference>) -> Result<(), Mismatch> {
    outcome.map_err(|difference| Mismatch {
        group,
        row,
        difference,
    })
}

pub fn at_code(code: u32, outcome: Result<(), Difference>) -> Result<(), Difference> {
    outcome.map_err(|difference| Difference { code, ..difference })
}

pub fn same(part: &'static str, expected: i128, seen: i128) -> Result<(), Difference> {
    if expected == seen {
        return Ok(());
    }
    Err(Difference {
        code: 0,
        part,
        cell: 0,
        expected,
        seen,
    })
}

// A value's mark and number.
// Stays in numbers: a test of the tests names which of the two differs, and keeps those names.
fn value_numbers(value: Value) -> (i128, i128) {
    match value {
        Value::Number(number) => (1, i128::from(number)),
        Value::Truth(truth) => (2, i128::from(truth)),
    }
}

fn cell_numbers(cell: Cell) -> (i128, i128) {
    match cell {
        Cell::Unset => (0, 0),
        Cell::Number(number) => (1, i128::from(number)),
        Cell::Truth(truth) => (2, i128::from(truth)),
        Cell::Link(link) => (3, i128::from(link)),
    }
}

pub fn halt_number(halt: Halt) -> u8 {
    Cause::Step(halt).number()
}

pub fn end_of(flow: Result<Flow, Halt>) -> End {
    match flow {
        Ok(Flow::Next) => End::Next,
        Ok(Flow::Ended(None)) => End::Nothing,
        Ok(Flow::Ended(Some(value))) => End::With(value),
        Err(halt) => End::Halt(halt_number(halt)),
    }
}

// An end's kind, then its value's mark and number, or a halt's number.
fn end_numbers(end: End) -> (i128, i128, i128) {
    match end {
        End::Next => (0, 0, 0),
        End::Nothing => (1, 0, 0),
        End::With(value) => {
            let (mark, number) = value_numbers(value);
            (1, mark, number)
        }
        End::Halt(number) => (2, 0, i128::from(number)),
    }
}

pub fn same_end(expected: End, seen: End) -> Result<(), Difference> {
    let (kind, mark, number) = end_numbers(expected);
    let (seen_kind, seen_mark, seen_number) = end_numbers(seen);
    same("kind of end", kind, seen_kind)?;
    same("mark at the end", mark, seen_mark)?;
    same("number at the end", number, seen_number)
}

// How a run stands, with the place of a halt.
#[derive(Clone, Copy, PartialEq, Eq, Debug)]
pub enum Stands {
    Paused,
    Ended(End),
    Halted(u8, u32),
}

pub fn stands_of(outcome: Outcome) -> Stands {
    match outcome {
        Outcome::Paused => Stands::Paused,
        Outcome::Finished(None) => Stands::Ended(End::Nothing),
        Outcome::Finished(Some(value)) => Stands::Ended(End::With(value)),
        Outcome::Halted(halt, place) => Stands::Halted(halt_number(halt), place),
    }
}

// How it stands as an end, and its place, if it has one.
fn stands_numbers(stands: Stands) -> (End, i128) {
    match stands {
        Stands::Paused => (End::Next, -1),
        Stands::Ended(end) => (end, -1),
        Stands::Halted(number, place) => (End::Halt(number), i128::from(place)),
    }
}

pub fn same_stands(expected: Stands, seen: Stands) -> Result<(), Difference> {
    let (end, place) = stands_numbers(expected);
    let (seen_end, seen_place) = stands_numbers(seen);
    same_end(end, seen_end)?;
    same("place", place, seen_place)
}

pub fn same_machine(expected: Machine, seen: Machine) -> Result<(), Difference> {
    same(
        "counter",
        i128::from(expected.counter),
        i128::from(seen.counter),
    )?;
    same("base", expected.base as i128, seen.base as i128)?;
    same("top", expected.top as i128, seen.top as i128)
}

fn same_cell(cell: usize, expected: Cell, seen: Cell) -> Result<(), Difference> {
    let (mark, number) = cell_numbers(expected);
    let (seen_mark, seen_number) = cell_numbers(seen);
    if mark != seen_mark {
        return Err(Difference {
            code: 0,
            part: "mark of a cell",
            cell,
            expected: mark,
            seen: seen_mark,
        });
    }
    if number != seen_number {
        return Err(Difference {
            code: 0,
            part: "cell",
            cell,
            expected: number,
            seen: seen_number,
        });
    }
    Ok(())
}

// All cells, those above the top too.
pub fn same_cells(expected: &[Cell], seen: &[Cell]) -> Result<(), Difference> {
    same("cells", expected.len() as i128, seen.len() as i128)?;
    for (cell, (expected, seen)) in expected.iter().zip(seen).enumerate() {
        same_cell(cell, *expected, *seen)?;
    }
    Ok(())
}

fn posted_numbers(posted: Option<i32>) -> (i128, i128) {
    posted.map_or((0, 0), |number| (1, i128::from(number)))
}

pub fn same_host(expected: OneLine, seen: OneLine) -> Result<(), Difference> {
    same("field", i128::from(expected.field), i128::from(seen.field))?;
    same(
        "amount",
        i128::from(expected.amount),
        i128::from(seen.amount),
    )?;
    same("flag", i128::from(expected.flag), i128::from(seen.flag))?;
    same(
        "account",
        i128::from(expected.account),
        i128::from(seen.account),
    )?;
    let (postings, total) = posted_numbers(expected.posted);
    let (seen_postings, seen_total) = posted_numbers(seen.posted);
    same("postings", postings, seen_postings)?;
    same("total", total, seen_total)
}
