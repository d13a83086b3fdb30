// Tests of the marked machine: each instruction in each of its ends, and whole runs.
#![tactic(auto)]

#[cfg(test)]
mod beginnings;
#[cfg(test)]
mod calls;
#[cfg(test)]
mod compared;
#[cfg(test)]
mod ends;
#[cfg(test)]
mod frames;
#[cfg(test)]
mod hosted;
#[cfg(test)]
mod jumps;
#[cfg(test)]
mod lawful;
#[cfg(test)]
mod literals;
#[cfg(test)]
mod noticed;
#[cfg(test)]
mod operators;
#[cfg(test)]
mod programs;
#[cfg(test)]
mod returns;
#[cfg(test)]
mod runs;
#[cfg(test)]
mod slots;
#[cfg(test)]
mod steps;
