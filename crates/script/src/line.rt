// Whole lines.
ghost use Rattle.std.specs.Prelude.{◌≡◌, vec_items};
ghost use Rattle.script.specs.Commands.{Asked, Found, Parsed, all_words, asked, line_of, tail_of, verb_of};
ghost use Rattle.script.specs.Words.{words};

use crate::command::{Command, Line, Verb};
use crate::numbers::word;
use crate::parse::head;
use crate::problem::Problem;
use crate::words::Words;
use std::alloc::Global;

// All words to the line's end.
#[tactic(auto, using(crate::proofs::Lists::one_more, crate::proofs::Lists::all_read))]
fn all_words(heap: Global, line: Words<'_>) -> Result<Vec<u32>, Problem>
    ensures { Found vec_items result (all_words (words line.entry.text.now)) }
{
    let mut numbers = Vec::new(heap);
    for name in line {
        numbers.push(word(name)?)?;
    }
    Ok(numbers)
}

// What follows a command's numbers.
fn tail(heap: Global, command: Command, mut line: Words<'_>) -> Result<Vec<u32>, Problem>
    ensures { Found vec_items result (tail_of command (words line.entry.text.now)) }
{
    if command.goes_on() {
        return all_words(heap, line);
    }
    if line.next().is_some() {
        return Err(Problem::TooManyWords);
    }
    Ok(Vec::new(heap))
}

// The command that a word names, with all that follows it.
fn call(heap: Global, name: &[u8], mut line: Words<'_>) -> Result<Line, Problem>
    ensures { Asked result (asked (verb_of name.now) (words line.entry.text.now)) }
{
    let command = head(Verb::try_from(name)?, &mut line)?;
    let words = tail(heap, command, line)?;
    Ok(Line { command, words })
}

// Reads a line: nothing where it has no word or its first begins with `#`, else the call that it writes.
pub fn parse(heap: Global, line: &[u8]) -> Result<Option<Line>, Problem>
    ensures { Parsed result (line_of line.now) }
{
    let mut words = Words { text: line };
    match words.next() {
        Some(name) if !name.starts_with(b"#") => Ok(Some(call(heap, name, words)?)),
        Some(_) | None => Ok(None),
    }
}
