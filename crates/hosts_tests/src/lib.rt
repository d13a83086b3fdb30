// What the two hosts, and the lists that they keep, answer at their bounds, run.
#![tactic(auto)]

#[cfg(test)]
mod lists;
#[cfg(test)]
mod records;
#[cfg(test)]
mod worksheets;
