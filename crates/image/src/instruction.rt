// Instructions, once their words have been found lawful.
ghost use Rattle.std.specs.Prelude.{◌≡◌};
ghost use Rattle.image.specs.declared.instruction.Instruction.TheVariants as instructions;

use language::values::{Operator, ValueType};

// What is known of an image that was taken: how many codes it has, and the type of its result.
#[derive(Clone, Copy, PartialEq, Eq, Debug)]
pub struct Header {
    pub count: u32,
    pub result: ValueType,
}

// An image that was taken: its header, and the number of the program's slots.
#[derive(Clone, Copy, PartialEq, Eq, Debug)]
pub struct Accepted {
    pub header: Header,
    pub others: u32,
}

// A slot of the frame that many hops off.
#[derive(Clone, Copy, PartialEq, Eq, Debug)]
pub struct Slot {
    pub hops: u32,
    pub index: u32,
}

// Where a call goes: the number of the code past the entry, its parameters and its other slots.
#[derive(Clone, Copy, PartialEq, Eq, Debug)]
pub struct Entry {
    pub start: u32,
    pub parameters: u32,
    pub others: u32,
}

// Instructions that touch the machine and its cells alone.
#[derive(Clone, Copy, PartialEq, Eq, Debug)]
pub enum Local {
    PushNumber(i32),
    PushTruth(bool),
    Load(Slot),
    Store(Slot),
    Operate(Operator),
    Not,
    Discard,
    Jump(u32),
    JumpIfFalse(u32),
    Open(u32),
    Call(Entry),
    Return,
    ReturnValue,
}

// All instructions: those, the three that turn to the host, and the two that end a run.
#[derive(Clone, Copy, PartialEq, Eq, Debug)]
pub enum Instruction {
    Local(Local),
    Amount,
    Flag,
    Post,
    End,
    EndValue,
}

impl From<Local> for Instruction {
    ghost from_gives = { λ l i. i ≡ instructions.Local l };

    fn from(value: Local) -> Instruction {
        Instruction::Local(value)
    }
}
