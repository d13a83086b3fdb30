// From the words of a line to its command.
ghost use Rattle.std.specs.Prelude.{◌≡◌};
ghost use Rattle.script.specs.declared.command.Verb.TheVariants as verbs;
ghost use Rattle.script.specs.Commands.{Took, head_of};
ghost use Rattle.script.specs.Words.{words};

use crate::command::{Command, Verb};
use crate::numbers::{flag, signed, word};
use crate::problem::Problem;
use crate::words::Words;

// The lengths of an area, and what it is filled with: 0 where that is left out.
fn area(line: &mut Words<'_>) -> Result<Command, Problem>
    ensures { Took result (words line.new.text.now) (head_of verbs.Area (words line.old.text.now)) }
{
    Ok(Command::Area {
        words: word(line.required()?)?,
        cells: word(line.required()?)?,
        fill: line.next().map_or(Ok(0), signed)?,
    })
}

// A command with its numbers.
pub(crate) fn head(verb: Verb, line: &mut Words<'_>) -> Result<Command, Problem>
    ensures { Took result (words line.new.text.now) (head_of verb (words line.old.text.now)) }
{
    Ok(match verb {
        Verb::Area => area(line)?,
        Verb::Record => Command::Record {
            accounts: word(line.required()?)?,
            lines: word(line.required()?)?,
        },
        Verb::Worksheet => Command::Worksheet {
            accounts: word(line.required()?)?,
            lines: word(line.required()?)?,
        },
        Verb::Amount => Command::Amount {
            field: word(line.required()?)?,
            value: signed(line.required()?)?,
        },
        Verb::Flag => Command::Flag {
            field: word(line.required()?)?,
            flag: flag(line.required()?)?,
        },
        Verb::Admit => return Err(Problem::NotAvailable),
        Verb::Bring => Command::Bring,
        Verb::Begin => Command::Begin,
        Verb::Continue => Command::Continue {
            allowance: word(line.required()?)?,
        },
        Verb::Clear => Command::Clear,
        Verb::Image => Command::Image,
        Verb::Totals => Command::Totals,
        Verb::State => Command::State,
        Verb::Trace => Command::Trace {
            steps: word(line.required()?)?,
        },
    })
}
