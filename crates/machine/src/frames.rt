// Frames on the cells, and the way along their access links.
ghost use Rattle.std.specs.Prelude.{◌≡◌, ◌+◌, ◌<◌, ◌≤◌, length, IfOk};
ghost use Rattle.machine.specs.Frames.{at, four_links, frame, hop, outer, slot_in, place};
ghost use Rattle.machine.specs.State.{Ready};

use crate::cells::Cell;
use crate::context::Context;
use image::instruction::Slot;
use language::faults::{Halt, Trouble};

// A frame: its base, and the place above its last slot.
// Stays without the fact that its links lie below its end: the definitions make frames of whatever cells hold, and would owe a proof each time.
#[derive(Clone, Copy, PartialEq, Eq, Debug)]
pub struct Frame {
    pub base: usize,
    pub end: usize,
}

// Whether four links stand from a place on; the number of the fourth.
pub(crate) fn four_links(cells: &[Cell], from: usize) -> Result<u32, Halt>
    requires { from + 4 ≤ length cells.now }
    ensures { result ≡ four_links (at cells.now) from }
{
    cells[from].link()?;
    cells[from + 1].link()?;
    cells[from + 2].link()?;
    cells[from + 3].link()
}

impl Frame {
    // The frame at a base, below a limit.
    pub(crate) fn find(cells: &[Cell], base: usize, limit: usize) -> Result<Frame, Halt>
        requires { limit ≤ length cells.now }
        ensures value { result ≡ frame (at cells.now) base limit }
        ensures bound { IfOk result (λ f. (f.base ≡ base) × (f.base + 4 ≤ f.end) × (f.end ≤ limit)) }
    {
        if limit < 4 || base > limit - 4 {
            return Err(Trouble::NoFrame.into());
        }
        let slots = four_links(cells, base)?;
        let end = base + 4 + slots as usize;
        if end > limit {
            return Err(Trouble::NoFrame.into());
        }
        Ok(Frame { base, end })
    }

    // The frame that the access link leads to, wholly below this one.
    fn hop(self, cells: &[Cell]) -> Result<Frame, Halt>
        requires { self.base < length cells.now }
        ensures value { result ≡ hop (at cells.now) self }
        ensures bound { IfOk result (λ f. (f.base + 4 ≤ f.end) × (f.end ≤ self.base)) }
    {
        let access = cells[self.base].link()?;
        Frame::find(cells, access as usize, self.base)
    }

    // The frame that many hops off.
    pub(crate) fn outer(self, cells: &[Cell], hops: u32) -> Result<Frame, Halt>
        requires { (self.base + 4 ≤ self.end) × (self.end ≤ length cells.now) }
        ensures value { result ≡ outer hops (at cells.now) self }
        ensures bound { IfOk result (λ f. (f.base + 4 ≤ f.end) × (f.end ≤ self.end)) }
    {
        let mut frame = self;
        for _ in 0..hops {
            frame = frame.hop(cells)?;
        }
        Ok(frame)
    }

    // The place of one of its slots.
    fn slot(self, index: u32) -> Result<usize, Halt>
        requires { self.base + 4 ≤ self.end }
        ensures value { result ≡ slot_in self index }
        ensures bound { IfOk result (λ k. k < self.end) }
    {
        let index = index as usize;
        if index >= self.end - self.base - 4 {
            return Err(Trouble::NoFrame.into());
        }
        Ok(self.base + 4 + index)
    }

    // The place of the slot that an instruction names.
    pub(crate) fn place(self, cells: &[Cell], slot: Slot) -> Result<usize, Halt>
        requires { (self.base + 4 ≤ self.end) × (self.end ≤ length cells.now) }
        ensures value { result ≡ place (at cells.now) self slot }
        ensures bound { IfOk result (λ k. k < self.end) }
    {
        let frame = self.outer(cells, slot.hops)?;
        frame.slot(slot.index)
    }
}

impl Context<'_> {
    // The own frame, below the top.
    pub(crate) fn own_frame(&self) -> Result<Frame, Halt>
        ensures value { result ≡ frame (at self.now.cells.now) self.now.machine.base self.now.machine.top }
        ensures bound { IfOk result (λ f. (f.base ≡ self.now.machine.base) × (f.base + 4 ≤ f.end) × (f.end ≤ self.now.machine.top)) }
    {
        Frame::find(self.cells, self.machine.base, self.machine.top)
    }

    // The frame that many hops off.
    pub(crate) fn outer(&self, own: Frame, hops: u32) -> Result<Frame, Halt>
        requires { Ready self.now.machine own }
        ensures value { result ≡ outer hops (at self.now.cells.now) own }
        ensures bound { IfOk result (λ f. (f.base + 4 ≤ f.end) × (f.end ≤ own.end)) }
    {
        own.outer(self.cells, hops)
    }

    // The place of the slot that an instruction names.
    pub(crate) fn place(&self, own: Frame, slot: Slot) -> Result<usize, Halt>
        requires { Ready self.now.machine own }
        ensures value { result ≡ place (at self.now.cells.now) own slot }
        ensures bound { IfOk result (λ k. k < own.end) }
    {
        own.place(self.cells, slot)
    }
}
