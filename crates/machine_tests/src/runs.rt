// Whole runs: an image is begun on fresh cells and run, at once or in pieces.
use crate::compared::{
    Difference, Mismatch, Stands, UNFIT, in_row, same, same_cells, same_host, same_machine,
    same_stands, stands_of,
};
use crate::steps::{HOST, put};
use host::one_line::OneLine;
use image::fetch::Image;
use image::instruction::Header;
use language::values::ValueType;
use machine::cells::Cell;
use machine::context::Context;
use machine::registers::{Machine, Outcome, Ran};

// A run under way.
#[derive(Clone, Copy, PartialEq, Eq, Debug)]
struct Running {
    header: Header,
    machine: Machine,
    host: OneLine,
}

// An image's header, and the number of the program's variables.
fn read(words: &[u32]) -> Result<(Header, u32), Difference> {
    if words.len() < 4 {
        return Err(UNFIT);
    }
    let count = words[0];
    if count < 1 || (words.len() - 2) / 2 < count as usize {
        return Err(UNFIT);
    }
    let result = ValueType::try_from(words[1]).map_err(|_| UNFIT)?;
    Ok((Header { count, result }, words[2 + count as usize] % 256))
}

fn begin(words: &[u32], cells: &mut [Cell], host: OneLine) -> Result<Running, Difference> {
    let (header, others) = read(words)?;
    let machine = Machine::begin(others, cells).map_err(|_| UNFIT)?;
    Ok(Running {
        header,
        machine,
        host,
    })
}

// Goes on with an allowance, where the machine's needs are met.
fn go(
    running: &mut Running,
    words: &[u32],
    cells: &mut [Cell],
    allowance: u32,
) -> Result<Ran, Difference> {
    let header = running.header;
    if words.len() < 2 || (words.len() - 2) / 2 < header.count as usize {
        return Err(UNFIT);
    }
    let machine = running.machine;
    let mut host = running.host;
    if machine.top > cells.len() || cells.len() > 65_536 {
        return Err(UNFIT);
    }
    let image = Image { words, header };
    let mut context = Context { machine, cells };
    let ran = context.run(image, &mut host, allowance);
    running.machine = context.machine;
    running.host = host;
    Ok(ran)
}

fn same_ran(steps: u32, stands: Stands, ran: Ran) -> Result<(), Difference> {
    same("steps", i128::from(steps), i128::from(ran.steps))?;
    same_stands(stands, stands_of(ran.outcome))
}

// An image, the number of cells, the allowance, the steps, and how the run then stands.
pub type Program = (&'static [u32], usize, u32, u32, Stands);

// The most cells of a run.
const SPACE: usize = 40;

// Begins and goes on once.
fn runs(program: Program, cells: &mut [Cell]) -> Result<(), Difference> {
    let (words, _, allowance, steps, stands) = program;
    let mut running = begin(words, cells, HOST)?;
    let ran = go(&mut running, words, cells, allowance)?;
    same_ran(steps, stands, ran)
}

pub fn run_all(programs: &[Program]) -> Result<(), Mismatch> {
    for (number, program) in programs.iter().enumerate() {
        let count = program.1;
        if count > SPACE {
            return in_row(0, number, Err(UNFIT));
        }
        let mut cells = [Cell::Truth(true); SPACE];
        let outcome = runs(*program, &mut cells[0..count]);
        in_row(0, number, outcome)?;
    }
    Ok(())
}

// Goes on in pieces of one size, with a piece of no steps before each, for so many steps in all.
fn go_in_pieces(
    running: &mut Running,
    words: &[u32],
    cells: &mut [Cell],
    piece: u32,
    all: u32,
) -> Result<Ran, Difference> {
    let mut left = all;
    let mut steps = 0u32;
    for _ in 0..all {
        let machine = running.machine;
        let none = go(running, words, cells, 0)?;
        same_ran(0, Stands::Paused, none)?;
        same_machine(machine, running.machine)?;
        let next = piece.min(left);
        left -= next;
        let ran = go(running, words, cells, next)?;
        steps = steps.saturating_add(ran.steps);
        match ran.outcome {
            Outcome::Paused => same("steps of a piece", i128::from(next), i128::from(ran.steps))?,
            Outcome::Finished(_) | Outcome::Halted(_, _) => return Ok(Ran { steps, ..ran }),
        }
    }
    Ok(Ran {
        steps,
        outcome: Outcome::Paused,
    })
}

// A run in pieces is the whole run: its steps, its outcome, its machine, its cells and its host.
fn runs_in_pieces(
    words: &[u32],
    cells: &mut [Cell],
    others: &mut [Cell],
    piece: u32,
) -> Result<(), Difference> {
    let mut once = begin(words, cells, HOST)?;
    let mut cut = begin(words, others, HOST)?;
    let ran = go(&mut once, words, cells, 100)?;
    let pieced = go_in_pieces(&mut cut, words, others, piece, 100)?;
    same_ran(ran.steps, stands_of(ran.outcome), pieced)?;
    same_machine(once.machine, cut.machine)?;
    same_cells(cells, others)?;
    same_host(once.host, cut.host)
}

fn row_in_pieces(program: Program, piece: u32) -> Result<(), Difference> {
    let count = program.1;
    if count > SPACE {
        return Err(UNFIT);
    }
    let mut cells = [Cell::Number(-77); SPACE];
    let mut others = [Cell::Number(-77); SPACE];
    runs_in_pieces(
        program.0,
        &mut cells[0..count],
        &mut others[0..count],
        piece,
    )
}

// Each program in pieces of 1 to 61 steps. The group of a mismatch is the size of its pieces.
pub fn run_all_in_pieces(programs: &[Program]) -> Result<(), Mismatch> {
    for (number, program) in programs.iter().enumerate() {
        for piece in 1..62u32 {
            in_row(piece as usize, number, row_in_pieces(*program, piece))?;
        }
    }
    Ok(())
}

// A run of several pieces, and everything that it leaves.
#[derive(Clone, Copy, PartialEq, Eq, Debug)]
pub struct Script {
    pub words: &'static [u32],
    pub cells: &'static [Cell],
    pub host: OneLine,
    // where the machine stands, unless the run is begun
    pub start: Option<Machine>,
    // allowances, the steps carried out, and how the run then stands
    pub pieces: &'static [(u32, u32, Stands)],
    pub machine: Machine,
    pub left: &'static [Cell],
    pub posted: Option<i32>,
}

fn start(script: Script, cells: &mut [Cell]) -> Result<Running, Difference> {
    match script.start {
        None => begin(script.words, cells, script.host),
        Some(machine) => {
            let (header, _) = read(script.words)?;
            Ok(Running {
                header,
                machine,
                host: script.host,
            })
        }
    }
}

fn plays(script: Script, cells: &mut [Cell]) -> Result<(), Difference> {
    put(cells, 0, script.cells);
    let mut running = start(script, cells)?;
    for piece in script.pieces {
        let (allowance, steps, stands) = *piece;
        let ran = go(&mut running, script.words, cells, allowance)?;
        same_ran(steps, stands, ran)?;
    }
    same_machine(script.machine, running.machine)?;
    same_cells(script.left, cells)?;
    let mut host = script.host;
    host.posted = script.posted;
    same_host(host, running.host)
}

pub fn play_all(scripts: &[Script]) -> Result<(), Mismatch> {
    for (number, script) in scripts.iter().enumerate() {
        let count = script.cells.len();
        if count > SPACE {
            return in_row(0, number, Err(UNFIT));
        }
        let mut cells = [Cell::Unset; SPACE];
        let outcome = plays(*script, &mut cells[0..count]);
        in_row(0, number, outcome)?;
    }
    Ok(())
}
