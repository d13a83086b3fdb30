// Marked cells, and what may be taken from them.
ghost use Rattle.std.specs.Prelude.{◌≡◌, Ok};
ghost use Rattle.machine.specs.Cells.{bind, cell_of, link, present, value, number, truth};

use language::faults::{Halt, Trouble};
use language::values::Value;
use std::fmt;

// A cell's mark and value.
#[derive(Clone, Copy, PartialEq, Eq, Debug)]
pub enum Cell {
    Unset,
    Number(i32),
    Truth(bool),
    Link(u32),
}

// A cell as programs show it.
impl fmt::Display for Cell {
    fn fmt<W: fmt::Write>(&self, f: &mut fmt::Formatter<W>) -> fmt::Result {
        match self {
            Cell::Unset => f.write_str("unset"),
            Cell::Number(number) => write!(f, "{number}"),
            Cell::Truth(truth) => write!(f, "{truth}"),
            Cell::Link(number) => write!(f, "link:{number}"),
        }
    }
}

// The cell that holds a value.
impl From<Value> for Cell {
    ghost from_gives = { λ v c. c ≡ cell_of v };

    fn from(value: Value) -> Cell {
        match value {
            Value::Number(number) => Cell::Number(number),
            Value::Truth(truth) => Cell::Truth(truth),
        }
    }
}

impl Cell {
    // A link's number.
    pub(crate) fn link(self) -> Result<u32, Halt>
        ensures { result ≡ link self }
    {
        match self {
            Cell::Link(number) => Ok(number),
            _ => Err(Trouble::NoFrame.into()),
        }
    }

    // Whether the cell was set.
    pub(crate) fn present(self) -> Result<(), Halt>
        ensures { result ≡ present self }
    {
        match self {
            Cell::Unset => Err(Trouble::Unset.into()),
            _ => Ok(()),
        }
    }

    // What is taken is a number or a truth value.
    pub(crate) fn value(self) -> Result<Value, Halt>
        ensures { result ≡ value self }
    {
        match self {
            Cell::Unset => Err(Trouble::Unset.into()),
            Cell::Number(number) => Ok(Value::Number(number)),
            Cell::Truth(truth) => Ok(Value::Truth(truth)),
            Cell::Link(_) => Err(Trouble::WrongMark.into()),
        }
    }

    // The cell itself, where it holds a value.
    pub(crate) fn taken(self) -> Result<Cell, Halt>
        ensures { result ≡ bind (value self) (λ v. Ok (cell_of v)) }
    {
        self.value()?;
        Ok(self)
    }

    // What is taken is a number.
    pub(crate) fn number(self) -> Result<i32, Halt>
        ensures { result ≡ number self }
    {
        match self {
            Cell::Unset => Err(Trouble::Unset.into()),
            Cell::Number(number) => Ok(number),
            _ => Err(Trouble::WrongMark.into()),
        }
    }

    // What is taken is a truth value.
    // Stays beside the one for numbers: they differ in a pattern and the type that it takes out, which no parameter stands for.
    pub(crate) fn truth(self) -> Result<bool, Halt>
        ensures { result ≡ truth self }
    {
        match self {
            Cell::Unset => Err(Trouble::Unset.into()),
            Cell::Truth(truth) => Ok(truth),
            _ => Err(Trouble::WrongMark.into()),
        }
    }
}

// Two cells that are taken from at once: both are set, before any mark is looked at.
pub(crate) fn both_set(left: Cell, right: Cell) -> Result<(), Halt>
    ensures { result ≡ bind (present left) (λ _. present right) }
{
    left.present()?;
    right.present()
}
