// Jumps, calls and returns.
ghost use Rattle.std.specs.Prelude.{◌≡◌, ◌+◌, ◌-◌, ◌^◌, ◌<◌, ◌≤◌, length};
ghost use Rattle.machine.specs.Cells.{times};
ghost use Rattle.machine.specs.Frames.{at, arguments, caller, four_links, present_at, value_at};
ghost use Rattle.machine.specs.Contexts.{Makes};
ghost use Rattle.machine.specs.State.{Ready, cleared, called, entered, jumped, returned, returned_value};

use crate::cells::Cell;
use crate::context::Context;
use crate::frames::{Frame, four_links};
use crate::registers::Flow;
use image::instruction::Entry;
use language::faults::{Halt, Stop};

// Arguments are taken where they are: that one is unset comes before that one has a wrong mark.
fn arguments_at(cells: &[Cell], from: usize, count: usize) -> Result<usize, Halt>
    requires { from + count ≤ length cells.now }
    ensures { result ≡ arguments (at cells.now) from count }
{
    let arguments = &cells[from..from + count];
    for cell in arguments {
        cell.present()?;
    }
    for cell in arguments {
        cell.value()?;
    }
    Ok(from + count)
}

// Makes so many cells from a place on unset.
pub(crate) fn clear_cells(cells: &mut [Cell], from: usize, count: usize)
    requires { from + count ≤ length cells.old }
    ensures { cells.new ≡ cleared count cells.old from }
{
    cells[from..from + count].fill(Cell::Unset);
}

impl Context<'_> {
    // Jumps.
    pub(crate) fn jump(&mut self, target: u32) -> Result<Flow, Halt>
        ensures { Makes (jumped target) self.old result self.new }
    {
        self.machine.counter = target;
        Ok(Flow::Next)
    }

    // Whether four links stand from a place on.
    fn four_links(&self, from: usize) -> Result<u32, Halt>
        requires { from + 4 ≤ self.now.machine.top }
        ensures { result ≡ four_links (at self.now.cells.now) from }
    {
        four_links(self.cells, from)
    }

    // Takes so many arguments where they are, below the top.
    fn arguments(&self, count: usize) -> Result<usize, Halt>
        requires { count ≤ self.now.machine.top }
        ensures { result ≡ arguments (at self.now.cells.now) (self.now.machine.top - count) count }
    {
        arguments_at(self.cells, self.machine.top - count, count)
    }

    // The frame of the caller, wholly below the own one.
    fn caller(&self, frame: Frame) -> Result<Frame, Halt>
        requires { Ready self.now.machine frame }
        ensures value { result ≡ caller (at self.now.cells.now) frame }
    {
        let base = self.cells[frame.base + 1].link()?;
        Frame::find(self.cells, base as usize, frame.base)
    }

    // Returns nothing.
    pub(crate) fn give_back(&mut self, frame: Frame) -> Result<Flow, Halt>
        requires { Ready self.old.machine frame }
        ensures { Makes (returned frame) self.old result self.new }
    {
        let to = self.caller(frame)?;
        let next = self.cells[frame.base + 2].link()?;
        self.machine.counter = next;
        self.machine.base = to.base;
        self.machine.top = frame.base;
        Ok(Flow::Next)
    }

    // Returns a value.
    pub(crate) fn give_back_value(&mut self, frame: Frame) -> Result<Flow, Halt>
        requires { Ready self.old.machine frame }
        ensures { Makes (returned_value frame) self.old result self.new }
    {
        let to = self.caller(frame)?;
        let next = self.cells[frame.base + 2].link()?;
        self.holds(frame, 1)?;
        let cell = self.cells[self.machine.top - 1].taken()?;
        self.cells[frame.base] = cell;
        self.machine.counter = next;
        self.machine.base = to.base;
        self.machine.top = frame.base + 1;
        Ok(Flow::Next)
    }

    // Goes past an entry: makes the frame over opened links and arguments its own.
    fn enter(&mut self, entry: Entry, base: usize) -> Result<Flow, Halt>
        requires { (self.old.machine.counter + 1 < 2 ^ 32) × ((base + 4 ≤ self.old.machine.top) × (entry.parameters + 4 ≤ self.old.machine.top)) }
        ensures { Makes (entered entry base) self.old result self.new }
    {
        let others = entry.others as usize;
        if self.cells.len() - self.machine.top < others {
            return Err(Stop::NoRoom.into());
        }
        self.cells[base + 2] = Cell::Link(self.machine.counter + 1);
        self.cells[base + 3] = Cell::Link(entry.parameters + entry.others);
        clear_cells(self.cells, self.machine.top, others);
        self.machine.counter = entry.start;
        self.machine.base = base;
        self.machine.top += others;
        Ok(Flow::Next)
    }

    // Calls an entry.
    pub(crate) fn call(&mut self, frame: Frame, entry: Entry) -> Result<Flow, Halt>
        requires { Ready self.old.machine frame }
        ensures { Makes (called entry frame) self.old result self.new }
    {
        let parameters = entry.parameters as usize;
        self.holds(frame, parameters + 4)?;
        let base = self.machine.top - (parameters + 4);
        self.four_links(base)?;
        self.arguments(parameters)?;
        self.enter(entry, base)
    }
}
