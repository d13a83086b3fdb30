// The walk over a well-formed table: expressions and statements, their names, types and code.
#![tactic(auto)]

pub mod codes;
pub mod contexts;
pub mod emitting;
pub mod flags;
pub mod lookup;
pub mod names;
pub mod reading;
pub mod setting;
pub mod tallies;
pub mod typing;
pub mod walking;
