// Tables of single steps: what is there before each, and what is expected after it.
use crate::compared::{
    Difference, End, Mismatch, UNFIT, at_code, end_of, in_row, same_cells, same_end, same_host,
    same_machine,
};
use host::one_line::OneLine;
use image::fetch;
use image::instruction::Header;
use language::faults::Halt;
use language::values::ValueType;
use machine::cells::Cell;
use machine::context::Context;
use machine::registers::{Flow, Machine};

// Where a step is made: the cells above the top, where a row gives working values only, and the host.
#[derive(Clone, Copy, PartialEq, Eq, Debug)]
pub struct Ground {
    pub above: &'static [Cell],
    pub host: OneLine,
}

// The counter, the result type, and the operand of the 22 at code 2.
// The image has four codes: 22, the code under test, 22, 27.
pub type Image = (u32, ValueType, u32);

pub const STEP: &[Image] = &[(1, ValueType::Int, 0)];

pub const HOST: OneLine = OneLine {
    field: 7,
    amount: -250,
    flag: true,
    account: 3,
    posted: None,
};

// Four cells are free, and hold what other steps have left.
pub const PLAIN: Ground = Ground {
    above: &[
        Cell::Truth(true),
        Cell::Link(5),
        Cell::Number(-3),
        Cell::Unset,
    ],
    host: HOST,
};

// No cell is free.
pub const FULL: Ground = Ground {
    above: &[],
    host: HOST,
};

// A ground and an image.
#[derive(Clone, Copy, PartialEq, Eq, Debug)]
pub struct Setting {
    counter: u32,
    result: ValueType,
    entry: u32,
    host: OneLine,
    above: &'static [Cell],
}

// What is there before a step, and what is expected of it.
pub trait Row {
    fn tried(&self, setting: Setting) -> Result<(), Difference>;
}

fn set(ground: Ground, image: Image) -> Setting {
    let (counter, result, entry) = image;
    Setting {
        counter,
        result,
        entry,
        host: ground.host,
        above: ground.above,
    }
}

// A row of values: they lie above a program's frame with one slot, in the cells from 5 on.
// Codes, their operand, the working values, the number of the halt.
pub type Halting = (&'static [u32], u32, &'static [Cell], u8);

// A code and its operand, the working values, the counter after the step, the working values after it.
pub type Going = (u32, u32, &'static [Cell], u32, &'static [Cell]);

// The operand of a 27, the working values, what the run ends with.
pub type Ending = (u32, &'static [Cell], End);

// The working values of a 26, and the total after it.
pub type Posting = (&'static [Cell], i32);

// A row of all cells, the base and the top, and the number of the halt.
pub type Stuck = (&'static [u32], u32, (usize, usize), &'static [Cell], u8);

// The base and the top, all cells; the counter, the base and the top after the step, and each changed cell.
pub type Moving = (
    u32,
    u32,
    (usize, usize),
    &'static [Cell],
    (u32, usize, usize),
    &'static [(usize, Cell)],
);

// Rows that are tried on each of some grounds, under each of some images.
pub type HaltingGroup = (&'static [Ground], &'static [Image], &'static [Halting]);

pub type GoingGroup = (&'static [Ground], &'static [Image], &'static [Going]);

pub type EndingGroup = (&'static [Ground], &'static [Image], &'static [Ending]);

pub type PostingGroup = (&'static [Ground], &'static [Image], &'static [Posting]);

pub type StuckGroup = (&'static [Ground], &'static [Image], &'static [Stuck]);

pub type MovingGroup = (&'static [Ground], &'static [Image], &'static [Moving]);

// Machine, cells and host.
#[derive(Clone, Copy, PartialEq, Eq, Debug)]
struct Scene<'a> {
    machine: Machine,
    cells: &'a [Cell],
    host: OneLine,
}

// The most cells of a row.
const SPACE: usize = 40;

const FRAME: [Cell; 5] = [
    Cell::Link(0),
    Cell::Link(0),
    Cell::Link(0),
    Cell::Link(1),
    Cell::Number(99),
];

// Writes a row of cells from a place on, as far as it reaches.
pub fn put(cells: &mut [Cell], from: usize, row: &[Cell]) {
    if let Some(rest) = cells.get_mut(from..) {
        for (cell, written) in rest.iter_mut().zip(row) {
            *cell = *written;
        }
    }
}

// A step, where the machine's needs are met.
fn step_once(
    words: &[u32],
    header: Header,
    machine: &mut Machine,
    cells: &mut [Cell],
    host: &mut OneLine,
) -> Result<Result<Flow, Halt>, Difference> {
    if words.len() < 2 || (words.len() - 2) / 2 < header.count as usize {
        return Err(UNFIT);
    }
    if machine.top > cells.len() || cells.len() > 65_536 {
        return Err(UNFIT);
    }
    let image = fetch::Image { words, header };
    let mut context = Context {
        machine: *machine,
        cells,
    };
    let flow = context.step(image, host);
    *machine = context.machine;
    Ok(flow)
}

// Steps once on these cells, and compares the end and everything that is left.
fn compares(
    words: &[u32],
    header: Header,
    before: Scene,
    cells: &mut [Cell],
    end: End,
    after: Scene,
) -> Result<(), Difference> {
    let mut machine = before.machine;
    let mut host = before.host;
    let flow = step_once(words, header, &mut machine, cells, &mut host)?;
    same_end(end, end_of(flow))?;
    same_machine(after.machine, machine)?;
    same_cells(after.cells, cells)?;
    same_host(after.host, host)
}

// Lays the image and a copy of the cells, and steps once.
// Stays with a setting, a code and its operand one by one: rows of the tests give the last two, and share the first.
fn leads(
    setting: Setting,
    code: u32,
    operand: u32,
    before: Scene,
    end: End,
    after: Scene,
) -> Result<(), Difference> {
    let count = before.cells.len();
    if count > SPACE {
        return Err(UNFIT);
    }
    let result = setting.result;
    let kind = u32::from(result);
    let words = [4, kind, 22, code, 22, 27, 0, operand, setting.entry, 0];
    let header = Header { count: 4, result };
    let mut space = [Cell::Unset; SPACE];
    put(&mut space, 0, before.cells);
    compares(&words, header, before, &mut space[0..count], end, after)
}

// Steps once, and expects everything to be as it was.
fn keeps(
    setting: Setting,
    code: u32,
    operand: u32,
    place: (usize, usize),
    cells: &[Cell],
    end: End,
) -> Result<(), Difference> {
    let (base, top) = place;
    let scene = Scene {
        machine: Machine {
            counter: setting.counter,
            base,
            top,
        },
        cells,
        host: setting.host,
    };
    leads(setting, code, operand, scene, end, scene)
}

// The frame, working values, and what lies above them.
fn laid(values: &[Cell], above: &[Cell]) -> [Cell; SPACE] {
    let mut space = [Cell::Unset; SPACE];
    put(&mut space, 0, &FRAME);
    put(&mut space, 5, values);
    if values.len() <= SPACE - 5 {
        put(&mut space, 5 + values.len(), above);
    }
    space
}

// Working values: a step that leaves everything as it was.
fn values_keep(
    setting: Setting,
    code: u32,
    operand: u32,
    values: &[Cell],
    end: End,
) -> Result<(), Difference> {
    if values.len() > 10 || setting.above.len() > 10 {
        return Err(UNFIT);
    }
    let space = laid(values, setting.above);
    let top = 5 + values.len();
    let count = top + setting.above.len();
    keeps(setting, code, operand, (0, top), &space[0..count], end)
}

// Working values: a step to others. What was taken stays above the new top.
fn values_lead(setting: Setting, row: Going, host: OneLine) -> Result<(), Difference> {
    let (code, operand, values, counter, left) = row;
    if values.len() > 10 || setting.above.len() > 10 || left.len() > 10 {
        return Err(UNFIT);
    }
    let top = 5 + values.len();
    let count = top + setting.above.len();
    let before = laid(values, setting.above);
    let mut after = before;
    put(&mut after, 5, left);
    let from = Scene {
        machine: Machine {
            counter: setting.counter,
            base: 0,
            top,
        },
        cells: &before[0..count],
        host: setting.host,
    };
    let to = Scene {
        machine: Machine {
            counter,
            base: 0,
            top: 5 + left.len(),
        },
        cells: &after[0..count],
        host,
    };
    leads(setting, code, operand, from, End::Next, to)
}

impl Row for Going {
    fn tried(&self, setting: Setting) -> Result<(), Difference> {
        at_code(self.0, values_lead(setting, *self, setting.host))
    }
}

impl Row for Halting {
    fn tried(&self, setting: Setting) -> Result<(), Difference> {
        let (codes, operand, values, halt) = *self;
        for code in codes {
            let outcome = values_keep(setting, *code, operand, values, End::Halt(halt));
            at_code(*code, outcome)?;
        }
        Ok(())
    }
}

impl Row for Ending {
    fn tried(&self, setting: Setting) -> Result<(), Difference> {
        let (operand, values, end) = *self;
        at_code(27, values_keep(setting, 27, operand, values, end))
    }
}

impl Row for Posting {
    fn tried(&self, setting: Setting) -> Result<(), Difference> {
        let (values, total) = *self;
        let mut host = setting.host;
        host.posted = Some(total);
        at_code(26, values_lead(setting, (26, 0, values, 2, &[]), host))
    }
}

impl Row for Stuck {
    fn tried(&self, setting: Setting) -> Result<(), Difference> {
        let (codes, operand, place, cells, halt) = *self;
        for code in codes {
            let outcome = keeps(setting, *code, operand, place, cells, End::Halt(halt));
            at_code(*code, outcome)?;
        }
        Ok(())
    }
}

// Writes each changed cell.
fn change(cells: &mut [Cell], changes: &[(usize, Cell)]) {
    for change in changes {
        let (place, cell) = *change;
        if place < cells.len() {
            cells[place] = cell;
        }
    }
}

// All cells: a step to other registers, with some cells changed.
fn moves(setting: Setting, row: Moving, after: &mut [Cell]) -> Result<(), Difference> {
    let (code, operand, place, cells, then, changes) = row;
    let (base, top) = place;
    let from = Scene {
        machine: Machine {
            counter: setting.counter,
            base,
            top,
        },
        cells,
        host: setting.host,
    };
    put(after, 0, cells);
    change(after, changes);
    let (counter, base, top) = then;
    let to = Scene {
        machine: Machine { counter, base, top },
        cells: after,
        host: setting.host,
    };
    leads(setting, code, operand, from, End::Next, to)
}

impl Row for Moving {
    fn tried(&self, setting: Setting) -> Result<(), Difference> {
        let count = self.3.len();
        if count > SPACE {
            return Err(UNFIT);
        }
        let mut after = [Cell::Unset; SPACE];
        at_code(self.0, moves(setting, *self, &mut after[0..count]))
    }
}

fn all_rows<R: Row>(group: usize, setting: Setting, rows: &[R]) -> Result<(), Mismatch> {
    for (number, row) in rows.iter().enumerate() {
        in_row(group, number, row.tried(setting))?;
    }
    Ok(())
}

// Tries every row of every group.
pub fn all<'a, R: Row>(groups: &[(&'a [Ground], &'a [Image], &'a [R])]) -> Result<(), Mismatch> {
    for (number, group) in groups.iter().enumerate() {
        for ground in group.0 {
            for image in group.1 {
                all_rows(number, set(*ground, *image), group.2)?;
            }
        }
    }
    Ok(())
}
