// A host that answers from a declaration record, a row of 32-bit words.
#![tactic(auto)]

pub mod check;
pub mod checked;
mod parts;
mod read;
pub mod record;
pub mod serve;
pub mod totals;
