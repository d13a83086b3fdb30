// The instructions that touch the machine and its cells alone.
ghost use Rattle.std.specs.Prelude.{◌≡◌, ◌+◌, ◌^◌, ◌<◌, ◌≤◌, OnOk};
ghost use Rattle.machine.specs.Contexts.{Makes, state_of};
ghost use Rattle.machine.specs.State.{Ready, holds, pushed, loaded, stored, operated, turned, discarded, jumped, branched, opened};

use crate::cells::{Cell, both_set};
use crate::context::Context;
use crate::frames::Frame;
use crate::registers::Flow;
use image::instruction::Slot;
use language::faults::{Halt, Stop, Trouble};
use language::values::Operator;

impl Context<'_> {
    // Whether there are so many working values, between the own slots and the top.
    pub(crate) fn holds(&self, frame: Frame, count: usize) -> Result<(), Halt>
        requires { frame.end ≤ self.now.machine.top }
        ensures value { result ≡ holds frame count (state_of self.now) }
        ensures room { OnOk result (frame.end + count ≤ self.now.machine.top) }
    {
        if self.machine.top - frame.end < count {
            return Err(Trouble::NoFrame.into());
        }
        Ok(())
    }

    // Pushes a cell, where there is room.
    pub(crate) fn push(&mut self, cell: Cell) -> Result<Flow, Halt>
        requires { self.old.machine.counter + 1 < 2 ^ 32 }
        ensures { Makes (pushed cell) self.old result self.new }
    {
        if self.machine.top >= self.cells.len() {
            return Err(Stop::NoRoom.into());
        }
        self.cells[self.machine.top] = cell;
        self.machine.top += 1;
        self.machine.counter += 1;
        Ok(Flow::Next)
    }

    // Pushes a copy of a slot.
    pub(crate) fn load(&mut self, frame: Frame, slot: Slot) -> Result<Flow, Halt>
        requires { Ready self.old.machine frame }
        ensures { Makes (loaded slot frame) self.old result self.new }
    {
        let place = self.place(frame, slot)?;
        let cell = self.cells[place].taken()?;
        self.push(cell)
    }

    // Takes a value into a slot.
    pub(crate) fn store(&mut self, frame: Frame, slot: Slot) -> Result<Flow, Halt>
        requires { Ready self.old.machine frame }
        ensures { Makes (stored slot frame) self.old result self.new }
    {
        self.holds(frame, 1)?;
        let place = self.place(frame, slot)?;
        let cell = self.cells[self.machine.top - 1].taken()?;
        self.cells[place] = cell;
        self.machine.top -= 1;
        self.machine.counter += 1;
        Ok(Flow::Next)
    }

    // Applies an operator to the two values on top, the right operand topmost.
    pub(crate) fn operate(&mut self, frame: Frame, operator: Operator) -> Result<Flow, Halt>
        requires { Ready self.old.machine frame }
        ensures { Makes (operated operator frame) self.old result self.new }
    {
        self.holds(frame, 2)?;
        let left = self.cells[self.machine.top - 2];
        let right = self.cells[self.machine.top - 1];
        both_set(left, right)?;
        let value = operator.apply(left.value()?, right.value()?)?;
        self.cells[self.machine.top - 2] = value.into();
        self.machine.top -= 1;
        self.machine.counter += 1;
        Ok(Flow::Next)
    }

    // Turns the truth value on top.
    pub(crate) fn negate(&mut self, frame: Frame) -> Result<Flow, Halt>
        requires { Ready self.old.machine frame }
        ensures { Makes (turned frame) self.old result self.new }
    {
        self.holds(frame, 1)?;
        let value = self.cells[self.machine.top - 1].value()?.negate()?;
        self.cells[self.machine.top - 1] = value.into();
        self.machine.counter += 1;
        Ok(Flow::Next)
    }

    // Takes a value and drops it.
    pub(crate) fn discard(&mut self, frame: Frame) -> Result<Flow, Halt>
        requires { Ready self.old.machine frame }
        ensures { Makes (discarded frame) self.old result self.new }
    {
        self.holds(frame, 1)?;
        self.cells[self.machine.top - 1].value()?;
        self.machine.top -= 1;
        self.machine.counter += 1;
        Ok(Flow::Next)
    }

    // Takes a truth value, and jumps if it is false.
    pub(crate) fn branch(&mut self, frame: Frame, target: u32) -> Result<Flow, Halt>
        requires { Ready self.old.machine frame }
        ensures { Makes (branched target frame) self.old result self.new }
    {
        self.holds(frame, 1)?;
        let go_on = self.cells[self.machine.top - 1].truth()?;
        self.machine.counter = if go_on {
            self.machine.counter + 1
        } else {
            target
        };
        self.machine.top -= 1;
        Ok(Flow::Next)
    }

    // Opens the links of a frame whose access base lies that many hops off.
    pub(crate) fn open(&mut self, frame: Frame, hops: u32) -> Result<Flow, Halt>
        requires { Ready self.old.machine frame }
        ensures { Makes (opened hops frame) self.old result self.new }
    {
        let access = self.outer(frame, hops)?.base;
        if self.cells.len() - self.machine.top < 4 {
            return Err(Stop::NoRoom.into());
        }
        self.cells[self.machine.top] = Cell::Link(access as u32);
        self.cells[self.machine.top + 1] = Cell::Link(self.machine.base as u32);
        self.cells[self.machine.top + 2] = Cell::Link(0);
        self.cells[self.machine.top + 3] = Cell::Link(0);
        self.machine.top += 4;
        self.machine.counter += 1;
        Ok(Flow::Next)
    }
}
