// The image of a rule set: a row of 32-bit words, and the instruction that stands at each code's number.
#![tactic(auto)]

pub mod accept;
pub mod fetch;
pub mod instruction;
