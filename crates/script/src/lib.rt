// The lines of a script: their words, their numbers, and the commands that they write.
#![tactic(auto)]

pub mod command;
pub mod line;
pub mod nodes;
pub mod numbers;
mod parse;
pub mod problem;
pub mod words;
