// The vocabulary of the engine: types, values, operators, arithmetic, the codes of instructions, and faults.
#![tactic(auto)]

pub mod arithmetic;
pub mod faults;
pub mod opcodes;
pub mod values;
