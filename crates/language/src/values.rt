// Types, values and operators of the language, with the numbers that stand for them in tables and images.
ghost use Rattle.std.specs.Prelude.{◌≡◌, ok_or};
ghost use Rattle.language.specs.Numbers.{type_number, type_at, operator_number, operator_at};

use std::error::Error;
use std::fmt;

// What an expression, a body or a program has: nothing, a whole number, a truth value.
#[derive(Clone, Copy, PartialEq, Eq, Debug)]
pub enum ValueType {
    Void = 0,
    Int = 1,
    Bool = 2,
}

// What a variable or a working cell can hold.
#[derive(Clone, Copy, PartialEq, Eq, Debug)]
pub enum Value {
    Number(i32),
    Truth(bool),
}

// The eleven operators on two operands, in the order of their numbers 1 to 11.
#[derive(Clone, Copy, PartialEq, Eq, Debug)]
pub enum Operator {
    Multiply = 1,
    Divide = 2,
    Add = 3,
    Subtract = 4,
    Less = 5,
    LessOrEqual = 6,
    Greater = 7,
    GreaterOrEqual = 8,
    Equal = 9,
    And = 10,
    Or = 11,
}

impl fmt::Display for Value {
    fn fmt<W: fmt::Write>(&self, f: &mut fmt::Formatter<W>) -> fmt::Result {
        match self {
            Value::Number(number) => write!(f, "{number}"),
            Value::Truth(truth) => write!(f, "{truth}"),
        }
    }
}

// A number that stands for none of those that a number may stand for here.
#[derive(Clone, Copy, PartialEq, Eq, Debug)]
pub struct UnknownNumber(pub u32);

impl fmt::Display for UnknownNumber {
    fn fmt<W: fmt::Write>(&self, f: &mut fmt::Formatter<W>) -> fmt::Result {
        write!(f, "{} stands for nothing here", self.0)
    }
}

impl Error for UnknownNumber {}

impl From<ValueType> for u32 {
    ghost from_gives = { λ t n. n ≡ type_number t };

    fn from(value: ValueType) -> u32 {
        value as u32
    }
}

impl TryFrom<u32> for ValueType {
    type Error = UnknownNumber;

    ghost try_from_gives = { λ n r. r ≡ ok_or (type_at n) (record { 0 = n }) };

    fn try_from(value: u32) -> Result<ValueType, UnknownNumber> {
        match value {
            0 => Ok(ValueType::Void),
            1 => Ok(ValueType::Int),
            2 => Ok(ValueType::Bool),
            _ => Err(UnknownNumber(value)),
        }
    }
}

impl From<Operator> for u32 {
    ghost from_gives = { λ o n. n ≡ operator_number o };

    fn from(operator: Operator) -> u32 {
        operator as u32
    }
}

impl TryFrom<u32> for Operator {
    type Error = UnknownNumber;

    ghost try_from_gives = { λ n r. r ≡ ok_or (operator_at n) (record { 0 = n }) };

    fn try_from(value: u32) -> Result<Operator, UnknownNumber> {
        match value {
            1 => Ok(Operator::Multiply),
            2 => Ok(Operator::Divide),
            3 => Ok(Operator::Add),
            4 => Ok(Operator::Subtract),
            5 => Ok(Operator::Less),
            6 => Ok(Operator::LessOrEqual),
            7 => Ok(Operator::Greater),
            8 => Ok(Operator::GreaterOrEqual),
            9 => Ok(Operator::Equal),
            10 => Ok(Operator::And),
            11 => Ok(Operator::Or),
            _ => Err(UnknownNumber(value)),
        }
    }
}
