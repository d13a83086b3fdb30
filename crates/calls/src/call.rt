// A call on a work area as a value, and what it answers where it is not turned down.
use machine::registers::Ran;
use std::fmt;
use table::nodes::Node;

#[derive(Clone, Copy, PartialEq, Eq, Debug)]
pub enum Call<'a> {
    Admit(&'a [Node]),
    Bring(&'a [u32]),
    Begin,
    Continue(u32),
    Clear,
}

// What each call answers; one that is turned down has a fault in place of it.
#[derive(Clone, Copy, PartialEq, Eq, Debug)]
pub enum Answer {
    Admitted(usize),
    Brought(usize),
    Begun,
    Continued(Ran),
    Cleared,
}

impl fmt::Display for Answer {
    fn fmt<W: fmt::Write>(&self, f: &mut fmt::Formatter<W>) -> fmt::Result {
        match self {
            Answer::Admitted(count) | Answer::Brought(count) => write!(f, "{count} words"),
            Answer::Begun => f.write_str("running"),
            Answer::Continued(ran) => write!(f, "{ran}"),
            Answer::Cleared => f.write_str("blank"),
        }
    }
}
