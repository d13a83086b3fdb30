// What the names in open scopes stand for.
use language::values::ValueType;

// What a name stands for: a variable with its type and slot; a function with its result type, the node where its parameters begin and the number of its entry's code; or one of the host's three functions.
#[derive(Clone, Copy, PartialEq, Eq, Debug)]
pub enum What {
    Variable {
        typed: ValueType,
        slot: u8,
    },
    Function {
        result: ValueType,
        parameters: usize,
        entry: u32,
    },
    Amount,
    Flag,
    Post,
}

// A name, the level of the frame that declared it, and what it stands for.
#[derive(Clone, Copy, PartialEq, Eq, Debug)]
pub struct Entry {
    pub name: u32,
    pub level: u8,
    pub what: What,
}

// A variable that was found: its type, the level of its frame and its slot there.
#[derive(Clone, Copy, PartialEq, Eq, Debug)]
pub(crate) struct Variable {
    pub typed: ValueType,
    pub level: u8,
    pub slot: u8,
}

// The parameters that are still to come in a call: those from a node on, or so many ints.
// Stays in three cases for ints: a function of the host wants none, one or two, and no other number can be written.
#[derive(Clone, Copy, PartialEq, Eq, Debug)]
pub(crate) enum Parameters {
    Listed(usize),
    NoInts,
    OneInt,
    TwoInts,
}

// Stays two flags: both may hold at once, and no value beside them depends on either.
// How the arguments so far went with the parameters: those to come, whether there was an argument too many, whether all types were right.
#[derive(Clone, Copy, PartialEq, Eq, Debug)]
pub(crate) struct Tally {
    pub left: Parameters,
    pub surplus: bool,
    pub matched: bool,
}
