// Tests of the node table, in a crate of their own so that the table is not proved twice.
#![tactic(auto)]

#[cfg(test)]
mod tests;
