// A host whose fields are filled by calls, and which keeps its charges as a list.
#![tactic(auto)]

pub mod charges;
pub mod fill;
pub mod row;
pub mod rows;
pub mod serve;
pub mod sheet;
