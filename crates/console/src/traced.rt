// The steps of a run as text, for people.
use image::instruction::Header;
use machine::cells::Cell;
use machine::registers::Machine;
use std::fmt;
use trace::name_of;

// An instruction: the name of its code, and its operand. None where the words have none.
#[derive(Clone, Copy, PartialEq, Eq, Debug)]
pub struct Instruction(Option<(u32, u32)>);

impl Instruction {
    // The instruction at a program counter.
    pub fn at(words: &[u32], header: Header, counter: u32) -> Instruction {
        let code = 2 + counter as usize;
        let operand = code + header.count as usize;
        Instruction(words.get(code).copied().zip(words.get(operand).copied()))
    }
}

impl fmt::Display for Instruction {
    fn fmt<W: fmt::Write>(&self, f: &mut fmt::Formatter<W>) -> fmt::Result {
        match self.0 {
            Some((code, operand)) => write!(f, "{} {operand}", name_of(code)),
            None => f.write_str("no code"),
        }
    }
}

// The place above the slots of the own frame.
fn floor(machine: Machine, cells: &[Cell]) -> usize {
    match cells.get(machine.base.saturating_add(3)) {
        Some(Cell::Link(slots)) => machine
            .base
            .saturating_add(4)
            .saturating_add(*slots as usize),
        Some(_) | None => machine.top,
    }
}

// The working values, from the lowest to the topmost.
pub fn working(machine: Machine, cells: &[Cell]) -> &[Cell] {
    let top = machine.top.min(cells.len());
    cells.get(floor(machine, cells)..top).unwrap_or(&[])
}
