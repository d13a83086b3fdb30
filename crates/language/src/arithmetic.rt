// Arithmetic and comparison on values: whole numbers of 32 bits, and what lies outside them is told.
ghost use Rattle.std.specs.Prelude.{◌≡◌, ◌+ℤ◌, ◌-ℤ◌, ◌*ℤ◌};
ghost use Rattle.language.specs.Operators.{in_range, quotient, applied, on_numbers, on_truths, negated};

use crate::faults::{Halt, Stop, Trouble};
use crate::values::{Operator, Value};

fn multiply(a: i32, b: i32) -> Result<i32, Stop>
    ensures { result ≡ in_range (a *ℤ b) }
{
    a.checked_mul(b).ok_or(Stop::OutOfRange)
}

// Drops the fraction toward zero.
// Stays worked in 64 bits: the rules of the engine name this form for it, with the least number over −1 refused where the quotient is no number.
fn divide(a: i32, b: i32) -> Result<i32, Stop>
    ensures { result ≡ quotient a b }
{
    if b == 0 {
        return Err(Stop::DivisorZero);
    }
    let quotient = i64::from(a) / i64::from(b);
    i32::try_from(quotient).map_err(|_| Stop::OutOfRange)
}

fn add(a: i32, b: i32) -> Result<i32, Stop>
    ensures { result ≡ in_range (a +ℤ b) }
{
    a.checked_add(b).ok_or(Stop::OutOfRange)
}

fn subtract(a: i32, b: i32) -> Result<i32, Stop>
    ensures { result ≡ in_range (a -ℤ b) }
{
    a.checked_sub(b).ok_or(Stop::OutOfRange)
}

#[inline(always)]
fn on_numbers(operator: Operator, a: i32, b: i32) -> Result<Value, Halt>
    ensures { result ≡ on_numbers operator a b }
{
    match operator {
        Operator::Multiply => Ok(Value::Number(multiply(a, b)?)),
        Operator::Divide => Ok(Value::Number(divide(a, b)?)),
        Operator::Add => Ok(Value::Number(add(a, b)?)),
        Operator::Subtract => Ok(Value::Number(subtract(a, b)?)),
        Operator::Less => Ok(Value::Truth(a < b)),
        Operator::LessOrEqual => Ok(Value::Truth(a <= b)),
        Operator::Greater => Ok(Value::Truth(a > b)),
        Operator::GreaterOrEqual => Ok(Value::Truth(a >= b)),
        Operator::Equal => Ok(Value::Truth(a == b)),
        Operator::And | Operator::Or => Err(Trouble::WrongMark.into()),
    }
}

#[inline(always)]
fn on_truths(operator: Operator, a: bool, b: bool) -> Result<Value, Halt>
    ensures { result ≡ on_truths operator a b }
{
    match operator {
        Operator::Equal => Ok(Value::Truth(a == b)),
        Operator::And => Ok(Value::Truth(a & b)),
        Operator::Or => Ok(Value::Truth(a | b)),
        Operator::Multiply | Operator::Divide | Operator::Add | Operator::Subtract => Err(
            Trouble::WrongMark.into(),
        ),
        Operator::Less | Operator::LessOrEqual | Operator::Greater | Operator::GreaterOrEqual =>
            Err(Trouble::WrongMark.into()),
    }
}

impl Operator {
    // The operator's result at two operands, or why there is none.
    #[inline(always)]
    pub fn apply(self, left: Value, right: Value) -> Result<Value, Halt>
        ensures { result ≡ applied self left right }
    {
        match (left, right) {
            (Value::Number(a), Value::Number(b)) => on_numbers(self, a, b),
            (Value::Truth(a), Value::Truth(b)) => on_truths(self, a, b),
            (Value::Number(_), Value::Truth(_)) | (Value::Truth(_), Value::Number(_)) => {
                Err(Trouble::WrongMark.into())
            }
        }
    }
}

impl Value {
    // Not, at a truth value.
    pub fn negate(self) -> Result<Value, Halt>
        ensures { result ≡ negated self }
    {
        match self {
            Value::Number(_) => Err(Trouble::WrongMark.into()),
            Value::Truth(truth) => Ok(Value::Truth(!truth)),
        }
    }
}
