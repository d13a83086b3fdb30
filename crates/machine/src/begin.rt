// How a run begins.
ghost use Rattle.std.specs.Prelude.{◌≡◌, ◌≤◌, length, IfOk};
ghost use Rattle.machine.specs.Begin.{LeftBegun, begun};

use crate::calls::clear_cells;
use crate::cells::Cell;
use crate::registers::Machine;
use language::faults::BeginRefusal;

// The most cells that a run may have.
pub const MOST_CELLS: usize = 65_536;

impl Machine {
    // Lays the program's frame at cell 0, with so many unset slots, and stands past the entry. It touches no other cell.
    pub fn begin(others: u32, cells: &mut [Cell]) -> Result<Machine, BeginRefusal>
        ensures state { LeftBegun (begun others cells.old) result cells.old cells.new }
        ensures bound { IfOk result (λ m. m.top ≤ length cells.new) }
    {
        let slots = others as usize;
        if cells.len() < 4 + slots || cells.len() > MOST_CELLS {
            return Err(BeginRefusal::CellCount);
        }
        cells[0] = Cell::Link(0);
        cells[1] = Cell::Link(0);
        cells[2] = Cell::Link(0);
        cells[3] = Cell::Link(others);
        clear_cells(cells, 4, slots);
        Ok(Machine {
            counter: 1,
            base: 0,
            top: 4 + slots,
        })
    }
}
