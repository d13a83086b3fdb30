// The marked machine: cells that know what they hold, frames, one step, and a run with an allowance.
#![tactic(auto)]

pub mod begin;
pub mod calls;
pub mod cells;
pub mod context;
pub mod frames;
pub mod hosted;
pub mod local;
pub mod registers;
pub mod run;
pub mod step;
