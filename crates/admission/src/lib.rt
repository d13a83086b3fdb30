// Admission: the walk over declarations, bodies and programs, above the walk over expressions and statements; and the call that decides a table.
#![tactic(auto)]

pub mod deciding;
pub mod declaring;
pub mod entering;
pub(crate) mod scopes;
pub(crate) mod tables;
