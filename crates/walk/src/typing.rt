// The types that operators, conditions and choices want and have.
ghost use Rattle.std.specs.Prelude.{◌≡◌};
ghost use Rattle.walk.specs.Types.{takes, makes, operation_type, negation_type, choice_type};
ghost use Rattle.walk.specs.Known.{type_or};

use language::faults::{Fault, WalkRefusal};
use language::values::{Operator, ValueType};

// The type that a number stands for; a number that stands for none is taken for void.
pub fn type_of(number: u32) -> ValueType
    ensures { result ≡ type_or number }
{
    ValueType::try_from(number).unwrap_or(ValueType::Void)
}

// Whether an operator takes operands of these types.
fn takes_both(operator: Operator, left: ValueType, right: ValueType) -> bool
    ensures { result ≡ takes operator left right }
{
    let ints = left == ValueType::Int && right == ValueType::Int;
    let truths = left == ValueType::Bool && right == ValueType::Bool;
    match operator {
        Operator::Multiply | Operator::Divide | Operator::Add | Operator::Subtract => ints,
        Operator::Less | Operator::LessOrEqual => ints,
        Operator::Greater | Operator::GreaterOrEqual => ints,
        Operator::Equal => ints || truths,
        Operator::And | Operator::Or => truths,
    }
}

// The type of an operator's result.
fn type_made(operator: Operator) -> ValueType
    ensures { result ≡ makes operator }
{
    match operator {
        Operator::Multiply | Operator::Divide => ValueType::Int,
        Operator::Add | Operator::Subtract => ValueType::Int,
        Operator::Less | Operator::LessOrEqual => ValueType::Bool,
        Operator::Greater | Operator::GreaterOrEqual => ValueType::Bool,
        Operator::Equal | Operator::And | Operator::Or => ValueType::Bool,
    }
}

// The type of an operation.
pub(crate) fn operation_type(
    place: u32,
    operator: Operator,
    left: ValueType,
    right: ValueType,
) -> Result<ValueType, Fault>
    ensures { result ≡ operation_type place operator left right }
{
    if takes_both(operator, left, right) {
        Ok(type_made(operator))
    } else {
        Err(WalkRefusal::WrongType.at(place))
    }
}

// The type of a not.
pub(crate) fn negation_type(place: u32, operand: ValueType) -> Result<ValueType, Fault>
    ensures { result ≡ negation_type place operand }
{
    if operand == ValueType::Bool {
        Ok(ValueType::Bool)
    } else {
        Err(WalkRefusal::WrongType.at(place))
    }
}

// The type of an if with a value.
pub(crate) fn choice_type(
    place: u32,
    condition: ValueType,
    first: ValueType,
    second: ValueType,
) -> Result<ValueType, Fault>
    ensures { result ≡ choice_type place condition first second }
{
    if condition == ValueType::Bool && first == second {
        Ok(first)
    } else {
        Err(WalkRefusal::WrongType.at(place))
    }
}
