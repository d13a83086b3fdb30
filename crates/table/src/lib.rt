// The node table: records in pre-order, whether their form is that of a tree, and the tree that they lay out.
#![tactic(auto)]

pub mod checking;
pub mod kinds;
pub mod nodes;
pub mod theorems;
