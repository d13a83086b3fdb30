// The code that the walk has laid so far.
use bounded_list::list::BoundedList;

// An instruction: its code and its operand.
// Stays of numbers: they are the image's words, and the definitions of the translation speak of them.
#[derive(Clone, Copy, PartialEq, Eq, Debug, Default)]
pub struct Instr {
    pub code: u32,
    pub operand: u32,
}

// Room for three instructions for each of 4,096 nodes.
#[derive(Drop)]
pub struct Code {
    pub(crate) instrs: BoundedList<Instr, 12_288>,
}
