// A list that is held in place, up to a number of items that its type tells: it takes no heap, and is copied with what holds it.
#![tactic(auto)]

pub mod list;
