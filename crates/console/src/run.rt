// Inputs, line by line.
use crate::reading::read_line;
use crate::session::Session;
use crate::steps::trace;
use anyhow::anyhow;
use script::command::Command;
use script::line::parse;
use script::problem::Problem;
use std::env;
use std::fs::File;
use std::io::{BufRead, BufReader};

// Answers one line.
// Stays a Result in a Result, with matches: a problem is told and the next line read, another error ends the program, and `?` hands on one of the two.
fn answer(
    rt: &HostRuntime,
    session: &mut Session,
    text: &[u8],
) -> anyhow::Result<Result<(), Problem>> {
    let line = match parse(rt.alloc(), text) {
        Ok(Some(line)) => line,
        Ok(None) => return Ok(Ok(())),
        Err(problem) => return Ok(Err(problem)),
    };
    if let Command::Trace { steps } = line.command {
        if session.has_host() {
            trace(rt, session, steps)?;
            return Ok(Ok(()));
        }
    }
    match session.answer(&line) {
        Ok(text) => println!(rt; "{text}")?,
        Err(problem) => return Ok(Err(problem)),
    }
    Ok(Ok(()))
}

// Answers all lines of an input.
fn answer_all<B: BufRead>(
    rt: &HostRuntime,
    session: &mut Session,
    reader: &mut B,
) -> anyhow::Result<()> {
    let mut line = Vec::new(rt.alloc());
    for number in 1..u64::MAX {
        let Some(kept) = read_line(reader, &mut line)? else {
            break;
        };
        let answered = match kept {
            Ok(text) => answer(rt, session, text)?,
            Err(problem) => Err(problem),
        };
        if let Err(problem) = answered {
            println!(rt; "error: line {number}: {problem}")?;
        }
    }
    Ok(())
}

fn answer_file(rt: &HostRuntime, session: &mut Session, path: &str) -> anyhow::Result<()> {
    let file = File::open(rt, path).map_err(|error| anyhow!("cannot read {path}: {error}"))?;
    answer_all(rt, session, &mut BufReader::new(rt.alloc(), file)?)
}

// Answers standard input, or the files named as arguments in order.
pub fn run(rt: &HostRuntime) -> anyhow::Result<()> {
    let mut session = Session::new(rt.alloc());
    let paths = env::args(rt)?.skip(1);
    if paths.len() == 0 {
        let mut input = BufReader::new(rt.alloc(), rt.stdin())?;
        return answer_all(rt, &mut session, &mut input);
    }
    for path in paths {
        answer_file(rt, &mut session, path.as_str())?;
    }
    Ok(())
}
