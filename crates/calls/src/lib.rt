// Lists of calls on one work area: each call as a value, its answer, and the law of every list.
#![tactic(auto)]

pub mod call;
pub mod law;
pub mod play;
