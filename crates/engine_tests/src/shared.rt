// What the tests share: an image, a host, and answers as numbers.
use engine::record::Record;
use host::one_line::OneLine;
use language::faults::{Cause, Fault};
use language::values::Value;
use machine::cells::Cell;
use machine::registers::{Outcome, Ran};

// The image of 1 + 2 * 3.
pub static SUM: [u32; 16] = [7, 1, 22, 1, 1, 1, 5, 7, 27, 0, 1, 2, 3, 0, 0, 1];

// Stays in numbers: the expected values were written down in them, and tests keep their values.
// The number of a refusal, with its place; 0 for a call that was accepted.
pub fn number<T: Drop>(answer: Result<T, Fault>) -> (u8, u32) {
    match answer {
        Ok(_) => (0, 0),
        Err(fault) => (fault.cause.number(), fault.place),
    }
}

// Stays in numbers: the expected values were written down in them, and tests keep their values.
// A continue's answer: steps, then 0 paused, 1 ended, 2 halted, then the number or the value, then the place.
pub fn told(answer: Result<Ran, Fault>) -> (u32, u8, i32, u32) {
    match answer {
        Err(fault) => (0, 9, i32::from(fault.cause.number()), fault.place),
        Ok(ran) => match ran.outcome {
            Outcome::Paused => (ran.steps, 0, 0, 0),
            Outcome::Finished(None) => (ran.steps, 1, 0, 0),
            Outcome::Finished(Some(Value::Number(number))) => (ran.steps, 1, number, 0),
            Outcome::Finished(Some(Value::Truth(truth))) => (ran.steps, 1, i32::from(truth), 1),
            Outcome::Halted(halt, place) => (
                ran.steps,
                2,
                i32::from(Cause::Step(halt).number()),
                place,
            ),
        },
    }
}

// Stays in numbers: the expected values were written down in them, and tests keep their values.
// A cell as numbers: its mark, and its value.
pub fn shown(cell: Cell) -> (u8, i64) {
    match cell {
        Cell::Unset => (0, 0),
        Cell::Number(number) => (1, i64::from(number)),
        Cell::Truth(truth) => (2, i64::from(truth)),
        Cell::Link(link) => (3, i64::from(link)),
    }
}

pub fn nothing_there() -> OneLine {
    OneLine {
        field: 0,
        amount: 5,
        flag: true,
        account: 0,
        posted: None,
    }
}
