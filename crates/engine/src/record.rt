// The record of a work area. Its stage can only be changed by the calls, so what it says of lengths and registers can be relied on.
ghost use Rattle.std.specs.Prelude.{◌≡◌, true, length};
ghost use Rattle.engine.specs.Calls.{known_lengths, same_lengths};
ghost use Rattle.engine.specs.Sound.{soundly};

use image::instruction::Accepted;
use machine::cells::Cell;
use machine::registers::{Machine, Outcome};
use std::fmt;

pub mod admit;
pub mod calls;
pub mod shown;

// What is known of the image in the buffer, and the lengths of buffer and cells when it was written there.
#[derive(Clone, Copy, PartialEq, Eq, Debug)]
pub struct Loaded {
    pub image: Accepted,
    pub buffer: usize,
    pub cells: usize,
}

impl Loaded {
    // An image that is written into this buffer, to be run on these cells.
    pub(crate) fn new(image: Accepted, buffer: &[u32], cells: &[Cell]) -> Loaded
        ensures { result ≡ known_lengths image (length buffer.now) (length cells.now) }
    {
        Loaded {
            image,
            buffer: buffer.len(),
            cells: cells.len(),
        }
    }

    // Whether buffer and cells have the lengths that they had when the image was written.
    pub(crate) fn same_lengths(&self, buffer: &[u32], cells: &[Cell]) -> bool
        ensures { result ≡ same_lengths self.now (length buffer.now) (length cells.now) }
    {
        self.buffer == buffer.len() && self.cells == cells.len()
    }
}

// How the area stands: nothing in it; an image; a run that can go on; a run that has ended, with its ending.
#[derive(Clone, Copy, PartialEq, Eq, Debug)]
pub enum Stage {
    Blank,
    Ready(Loaded),
    Running(Loaded, Machine),
    Ended(Loaded, Outcome),
}

impl fmt::Display for Stage {
    fn fmt<W: fmt::Write>(&self, f: &mut fmt::Formatter<W>) -> fmt::Result {
        f.write_str(match self {
            Stage::Blank => "blank",
            Stage::Ready(_) => "ready",
            Stage::Running(_, _) => "running",
            Stage::Ended(_, _) => "ended",
        })
    }
}

// The image lies within the buffer, and a run's top within the cells.
#[derive(Clone, Copy, PartialEq, Eq, Debug)]
pub struct Record {
    stage: Stage,
    ghost sound: { soundly stage ≡ true },
}
