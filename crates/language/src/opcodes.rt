// The codes of the instructions, by name, with the numbers that stand for them in images.
ghost use Rattle.std.specs.Prelude.{◌≡◌, ok_or};
ghost use Rattle.language.specs.Numbers.{opcode_at, opcode_number};

use crate::values::{Operator, UnknownNumber};

// The codes, in the order of their numbers 1 to 27; the eleven operators are 5 to 15.
#[derive(Clone, Copy, PartialEq, Eq, Debug)]
pub enum Opcode {
    PushNumber,
    PushTruth,
    Load,
    Store,
    Operate(Operator),
    Not,
    Discard,
    Jump,
    JumpIfFalse,
    OpenLinks,
    Call,
    Entry,
    Return,
    Amount,
    Flag,
    Post,
    End,
}

impl From<Opcode> for u32 {
    ghost from_gives = { λ o n. n ≡ opcode_number o };

    fn from(value: Opcode) -> u32 {
        match value {
            Opcode::PushNumber => 1,
            Opcode::PushTruth => 2,
            Opcode::Load => 3,
            Opcode::Store => 4,
            Opcode::Operate(operator) => 4 + u32::from(operator),
            Opcode::Not => 16,
            Opcode::Discard => 17,
            Opcode::Jump => 18,
            Opcode::JumpIfFalse => 19,
            Opcode::OpenLinks => 20,
            Opcode::Call => 21,
            Opcode::Entry => 22,
            Opcode::Return => 23,
            Opcode::Amount => 24,
            Opcode::Flag => 25,
            Opcode::Post => 26,
            Opcode::End => 27,
        }
    }
}

impl TryFrom<u32> for Opcode {
    type Error = UnknownNumber;

    ghost try_from_gives = { λ n r. r ≡ ok_or (opcode_at n) (record { 0 = n }) };

    fn try_from(value: u32) -> Result<Opcode, UnknownNumber> {
        match value {
            1 => Ok(Opcode::PushNumber),
            2 => Ok(Opcode::PushTruth),
            3 => Ok(Opcode::Load),
            4 => Ok(Opcode::Store),
            5 => Ok(Opcode::Operate(Operator::Multiply)),
            6 => Ok(Opcode::Operate(Operator::Divide)),
            7 => Ok(Opcode::Operate(Operator::Add)),
            8 => Ok(Opcode::Operate(Operator::Subtract)),
            9 => Ok(Opcode::Operate(Operator::Less)),
            10 => Ok(Opcode::Operate(Operator::LessOrEqual)),
            11 => Ok(Opcode::Operate(Operator::Greater)),
            12 => Ok(Opcode::Operate(Operator::GreaterOrEqual)),
            13 => Ok(Opcode::Operate(Operator::Equal)),
            14 => Ok(Opcode::Operate(Operator::And)),
            15 => Ok(Opcode::Operate(Operator::Or)),
            16 => Ok(Opcode::Not),
            17 => Ok(Opcode::Discard),
            18 => Ok(Opcode::Jump),
            19 => Ok(Opcode::JumpIfFalse),
            20 => Ok(Opcode::OpenLinks),
            21 => Ok(Opcode::Call),
            22 => Ok(Opcode::Entry),
            23 => Ok(Opcode::Return),
            24 => Ok(Opcode::Amount),
            25 => Ok(Opcode::Flag),
            26 => Ok(Opcode::Post),
            27 => Ok(Opcode::End),
            _ => Err(UnknownNumber(value)),
        }
    }
}
