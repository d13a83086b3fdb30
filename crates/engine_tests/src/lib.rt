// Tests of the work area's calls: each refusal, each order of two that hold at once, and what a call leaves untouched; rule sets from node table to ending, and lists of calls.
#![tactic(auto)]

#[cfg(test)]
mod admits;
#[cfg(test)]
mod lists;
#[cfg(test)]
mod refusals;
#[cfg(test)]
mod shared;
#[cfg(test)]
mod tables;
#[cfg(test)]
mod work_area;
