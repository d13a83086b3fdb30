// Code 27, under each result type.
use crate::compared::End;
use crate::steps::{Ending, EndingGroup, FULL, Image, PLAIN, all};
use language::values::{Value, ValueType};
use machine::cells::Cell::{Link, Number, Truth, Unset};
use std::test::Fail;

// Under any type.
const ANY: &[Ending] = &[
    (1, &[], End::Halt(54)),
    (1, &[Unset], End::Halt(52)),
    (1, &[Number(1), Unset], End::Halt(52)),
    (1, &[Link(1)], End::Halt(53)),
    (1, &[Truth(true), Link(1)], End::Halt(53)),
    (2, &[Number(1)], End::Halt(51)),
    (4294967295, &[], End::Halt(51)),
];

const VOID: &[Ending] = &[
    (0, &[], End::Nothing),
    (0, &[Number(1)], End::Nothing),
    (0, &[Unset], End::Nothing),
    (0, &[Number(1), Link(1)], End::Nothing),
    (1, &[Number(1)], End::Halt(53)),
    (1, &[Truth(true)], End::Halt(53)),
    (1, &[Unset, Number(1)], End::Halt(53)),
    (2, &[], End::Halt(51)),
];

const INT: &[Ending] = &[
    (1, &[Number(7)], End::With(Value::Number(7))),
    (
        1,
        &[Number(-2147483648)],
        End::With(Value::Number(-2147483648)),
    ),
    (1, &[Unset, Number(0)], End::With(Value::Number(0))),
    (1, &[Truth(true), Number(5)], End::With(Value::Number(5))),
    (1, &[Truth(true)], End::Halt(53)),
    (0, &[], End::Halt(53)),
    (0, &[Number(7)], End::Halt(53)),
    (0, &[Unset], End::Halt(53)),
];

const BOOL: &[Ending] = &[
    (1, &[Truth(true)], End::With(Value::Truth(true))),
    (1, &[Truth(false)], End::With(Value::Truth(false))),
    (1, &[Link(1), Truth(true)], End::With(Value::Truth(true))),
    (1, &[Number(1)], End::Halt(53)),
    (0, &[], End::Halt(53)),
    (0, &[Truth(true)], End::Halt(53)),
    (0, &[Link(1)], End::Halt(53)),
];

const VOID_IMAGE: Image = (1, ValueType::Void, 0);

const INT_IMAGE: Image = (1, ValueType::Int, 0);

const BOOL_IMAGE: Image = (1, ValueType::Bool, 0);

const ENDING: &[EndingGroup] = &[
    (&[PLAIN, FULL], &[VOID_IMAGE, INT_IMAGE, BOOL_IMAGE], ANY),
    (&[PLAIN, FULL], &[VOID_IMAGE], VOID),
    (&[PLAIN, FULL], &[INT_IMAGE], INT),
    (&[PLAIN, FULL], &[BOOL_IMAGE], BOOL),
];

#[test]
fn runs_end_with_a_result_of_their_type() -> Result<(), Fail> {
    all(ENDING)?;
    Ok(())
}
