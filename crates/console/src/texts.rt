// Answers as text.
use language::faults::Fault;
use std::fmt;

// What a command came to: its answer, or the fault for which it was turned down.
#[derive(Clone, Copy, PartialEq, Eq, Debug)]
pub struct Reply<T>(pub Result<T, Fault>);

impl<T: fmt::Display> fmt::Display for Reply<T> {
    fn fmt<W: fmt::Write>(&self, f: &mut fmt::Formatter<W>) -> fmt::Result {
        match &self.0 {
            Ok(answer) => write!(f, "{answer}"),
            Err(fault) => write!(f, "refused {fault}"),
        }
    }
}

// Values one after another, each after a space.
#[derive(Clone, Copy, PartialEq, Eq, Debug)]
pub struct Spaced<'a, T>(pub &'a [T]);

impl<'a, T: fmt::Display> fmt::Display for Spaced<'a, T> {
    fn fmt<W: fmt::Write>(&self, f: &mut fmt::Formatter<W>) -> fmt::Result {
        for value in self.0 {
            write!(f, " {value}")?;
        }
        Ok(())
    }
}
