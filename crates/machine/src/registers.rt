// The machine's registers, and what a step comes to.
use language::faults::{Cause, Halt};
use language::values::Value;
use std::fmt;

// The program counter, the base of the own frame, and the place above the last working value.
#[derive(Clone, Copy, PartialEq, Eq, Debug)]
pub struct Machine {
    pub counter: u32,
    pub base: usize,
    pub top: usize,
}

// A step goes on to the next, or ends the run with its value, if it has one.
// Stays an enum of its own: it has ControlFlow's shape, where `Break(None)` would say no more than `Ended(None)`, and less plainly that a run has ended.
#[derive(Clone, Copy, PartialEq, Eq, Debug)]
pub enum Flow {
    Next,
    Ended(Option<Value>),
}

// How a run stands: paused with its allowance used up, finished with its value, if it has one, or halted at a code's number.
#[derive(Clone, Copy, PartialEq, Eq, Debug)]
pub enum Outcome {
    Paused,
    Finished(Option<Value>),
    Halted(Halt, u32),
}

// How many steps were carried out, and how the run then stands.
#[derive(Clone, Copy, PartialEq, Eq, Debug)]
pub struct Ran {
    pub steps: u32,
    pub outcome: Outcome,
}

// How a run stands, as programs show it.
impl fmt::Display for Outcome {
    fn fmt<W: fmt::Write>(&self, f: &mut fmt::Formatter<W>) -> fmt::Result {
        match self {
            Outcome::Paused => f.write_str("paused"),
            Outcome::Finished(None) => f.write_str("ended with nothing"),
            Outcome::Finished(Some(value)) => write!(f, "ended with {value}"),
            Outcome::Halted(halt, place) => {
                let kind = match halt {
                    Halt::Stopped(_) => "stopped",
                    Halt::Troubled(_) => "trouble",
                };
                write!(f, "{kind} {} at {place}", Cause::Step(*halt).number())
            }
        }
    }
}

impl fmt::Display for Ran {
    fn fmt<W: fmt::Write>(&self, f: &mut fmt::Formatter<W>) -> fmt::Result {
        write!(f, "{} after {} steps", self.outcome, self.steps)
    }
}
