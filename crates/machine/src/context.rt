// The machine at work.
ghost use Rattle.std.specs.Prelude.{◌≤◌, length};

use crate::cells::Cell;
use crate::registers::Machine;

// The machine and the cells that are lent to it. The top lies within the cells, of which there are at most 65,536.
// Stays with three clauses that many methods share: that the own frame is ready (calls and returns change the base under it, so no field could keep it), that the same cells stay lent, and what was made of them.
#[derive(Drop)]
pub struct Context<'a> {
    pub machine: Machine,
    pub cells: &'a mut [Cell],
    ghost within: { machine.top ≤ length cells.now },
    ghost few: { length cells.now ≤ 65536 },
}
