// What a line of a script asks for.
ghost use Rattle.std.specs.Prelude.{◌≡◌, ok_or};
ghost use Rattle.script.specs.declared.problem.Problem.TheVariants.{UnknownWord};
ghost use Rattle.script.specs.Commands.{goes_on, verb_of};

use crate::problem::Problem;

// The first word of a line.
#[derive(Clone, Copy, PartialEq, Eq, Debug)]
pub enum Verb {
    Area,
    Record,
    Worksheet,
    Amount,
    Flag,
    Admit,
    Bring,
    Begin,
    Continue,
    Clear,
    Image,
    Totals,
    State,
    Trace,
}

// The command that a word names.
impl TryFrom<&[u8]> for Verb {
    type Error = Problem;

    ghost try_from_gives = { λ w r. r ≡ ok_or (verb_of w.now) UnknownWord };

    fn try_from(value: &[u8]) -> Result<Verb, Problem> {
        match value {
            b"area" => Ok(Verb::Area),
            b"record" => Ok(Verb::Record),
            b"worksheet" => Ok(Verb::Worksheet),
            b"amount" => Ok(Verb::Amount),
            b"flag" => Ok(Verb::Flag),
            b"admit" => Ok(Verb::Admit),
            b"bring" => Ok(Verb::Bring),
            b"begin" => Ok(Verb::Begin),
            b"continue" => Ok(Verb::Continue),
            b"clear" => Ok(Verb::Clear),
            b"image" => Ok(Verb::Image),
            b"totals" => Ok(Verb::Totals),
            b"state" => Ok(Verb::State),
            b"trace" => Ok(Verb::Trace),
            _ => Err(Problem::UnknownWord),
        }
    }
}

// A command with its numbers; record and bring go on with any number of words.
#[derive(Clone, Copy, PartialEq, Eq, Debug)]
pub enum Command {
    Area { words: u32, cells: u32, fill: i32 },
    Record { accounts: u32, lines: u32 },
    Worksheet { accounts: u32, lines: u32 },
    Amount { field: u32, value: i32 },
    Flag { field: u32, flag: bool },
    Bring,
    Begin,
    Continue { allowance: u32 },
    Clear,
    Image,
    Totals,
    State,
    Trace { steps: u32 },
}

impl Command {
    // Whether words up to the line's end follow the command's numbers.
    pub(crate) fn goes_on(self) -> bool
        ensures { result ≡ goes_on self }
    {
        matches!(self, Command::Record { .. } | Command::Bring)
    }
}

// A line that is a call: its command, and the words that record and bring go on with.
#[derive(Drop, PartialEq, Eq, Debug)]
pub struct Line {
    pub command: Command,
    pub words: Vec<u32>,
}
