// A work area: its record, and the memory that is lent to each call.
use calls::call::{Answer, Call};
use calls::play::play;
use engine::record::Record;
use host::Host;
use language::faults::Fault;
use machine::cells::Cell;
use script::problem::Problem;
use std::alloc::Global;

// The most words of a buffer, and the most cells.
const LARGEST: u32 = 1_000_000;

#[derive(Drop)]
pub struct Area {
    pub record: Record,
    pub buffer: Vec<u32>,
    pub cells: Vec<Cell>,
}

impl Area {
    // An area of no words and no cells.
    pub fn new(heap: Global) -> Area {
        Area {
            record: Record::new(),
            buffer: Vec::new(heap),
            cells: Vec::new(heap),
        }
    }

    // An area that is filled with a number.
    pub fn filled(heap: Global, words: u32, cells: u32, fill: i32) -> Result<Area, Problem> {
        if words > LARGEST || cells > LARGEST {
            return Err(Problem::LargeArea);
        }
        Ok(Area {
            record: Record::new(),
            buffer: vec![in heap; fill.cast_unsigned(); words as usize]?,
            cells: vec![in heap; Cell::Number(fill); cells as usize]?,
        })
    }

    // Plays a call.
    pub fn play<H: Host>(&mut self, host: &mut H, call: Call) -> Result<Answer, Fault> {
        let mut answers = [Ok(Answer::Cleared)];
        play(
            &mut self.record,
            &mut self.buffer,
            &mut self.cells,
            host,
            &[call],
            &mut answers,
        );
        answers[0]
    }
}
