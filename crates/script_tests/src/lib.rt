// Lines of scripts, read.
#![tactic(auto)]

#[cfg(test)]
mod lines;
#[cfg(test)]
mod nodes;
#[cfg(test)]
mod numbers;
