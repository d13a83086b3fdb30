// Admitting a rule set, which comes as a node table.
ghost use Rattle.std.specs.Prelude.{◌≡◌, ◌+◌, ◌*◌, ◌≤◌, ◌++◌, map, length, drop, slice_index};
ghost use Rattle.walk.specs.Lay.{live};
ghost use Rattle.engine.specs.Admit.{AdmitGave, AdmitsJustTyped, image_of};
ghost use Rattle.engine.specs.Calls.{area};

use crate::record::{Loaded, Record, Stage};
use admission::deciding::decide;
use image::instruction::{Accepted, Header};
use language::faults::{Cause, Fault};
use language::values::ValueType;
use machine::cells::Cell;
use table::nodes::Node;
use walk::codes::Code;

// Writes the image of the code that was laid at the buffer's start: its header, the codes of its instructions, then their operands.
fn write_image(buffer: &mut [u32], code: &Code, result_type: ValueType)
    requires { 2 + 2 * length (live code.now) ≤ length buffer.old }
    ensures { buffer.new ≡ image_of result_type (live code.now) ++ drop (length (image_of result_type (live code.now))) buffer.old }
{
    let laid = code.as_slice();
    buffer[0] = code.next();
    buffer[1] = u32::from(result_type);
    // Stays by place, here and below: after a loop over the buffer's own items nothing is known of what was written. The two differ in a field, and what a closure would write is lost to the proof.
    for (k, instr) in laid.iter().enumerate() {
        buffer[2 + k] = instr.code;
    }
    for (k, instr) in laid.iter().enumerate() {
        buffer[2 + laid.len() + k] = instr.operand;
    }
}

// The slots of the program's frame: the operand of code 0, which is its entry.
fn others(code: &Code) -> u32
    ensures { result ≡ slice_index (map (λ i. i.operand) (live code.now)) 0 }
{
    code.as_slice().first().map_or(0, |entry| entry.operand)
}

impl Record {
    // Takes a rule set into the buffer, where it has a type and there is room for its image; answers how many words that has.
    pub fn admit(
        &mut self,
        buffer: &mut [u32],
        cells: &[Cell],
        nodes: &[Node],
    ) -> Result<usize, Fault>
        ensures gave { AdmitGave nodes.now (area buffer.old cells.now self.old.stage) result buffer.new cells.now self.new.stage }
        ensures typed { AdmitsJustTyped nodes.now buffer.old result buffer.new }
    {
        let mut code = Code::new();
        let result = decide(nodes, &mut code)?;
        let count = code.next();
        let words = 2 + 2 * count as usize;
        if buffer.len() < words {
            return Err(Cause::Buffer.into());
        }
        let image = Accepted {
            header: Header { count, result },
            others: others(&code),
        };
        write_image(buffer, &code, result);
        self.stage = Stage::Ready(Loaded::new(image, buffer, cells));
        Ok(words)
    }
}
