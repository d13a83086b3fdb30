// Laying code, and patching what was laid.
ghost use Rattle.std.specs.Prelude.{◌≡◌, ◌+◌, ◌<◌, [], slice_index_or};
ghost use Rattle.language.specs.Numbers.{opcode_number};
ghost use Rattle.walk.specs.Lay.{instr, live, count, laid, patched, aimed};
ghost use Rattle.walk.specs.Known.{AtMostOne};
ghost use Rattle.walk.specs.Expressions.{dropped};

use crate::codes::{Code, Instr};
use bounded_list::list::BoundedList;
use language::opcodes::Opcode;
use language::values::ValueType;

// Stays with clauses on its length in each method: that there is room, or that an instruction was laid there, is no fact of every code, and how the length changes relates before and after.
impl Code {
    // Nothing is laid.
    pub fn new() -> Code
        ensures code { live result ≡ [] }
        ensures length { count result ≡ 0 }
    {
        Code {
            instrs: BoundedList::empty(Instr::default()),
        }
    }

    // Nothing is laid any more.
    pub fn clear(&mut self)
        ensures code { live self.new ≡ [] }
        ensures length { count self.new ≡ 0 }
    {
        self.instrs.clear();
    }

    // The number of the instruction that is laid next.
    pub fn next(&self) -> u32
        ensures { result ≡ count self.now }
    {
        self.instrs.len() as u32
    }

    // What is laid, in its order.
    pub fn as_slice(&self) -> &[Instr]
        ensures { result.now ≡ live self.now }
    {
        self.instrs.as_slice()
    }

    // An instruction that was laid.
    pub fn at(&self, k: usize) -> Instr
        requires { k < count self.now }
        ensures { result ≡ slice_index_or (live self.now) k (instr 0 0) }
    {
        self.as_slice()[k]
    }

    // Lays one more instruction.
    pub fn emit(&mut self, code: u32, operand: u32)
        requires { count self.old < 12288 }
        ensures code { live self.new ≡ laid (live self.old) code operand }
        ensures length { count self.new ≡ count self.old + 1 }
    {
        self.instrs.push(Instr { code, operand });
    }

    // Puts one instruction in the place of another.
    pub fn patch(&mut self, at: u32, code: u32, operand: u32)
        requires { at < count self.old }
        ensures code { live self.new ≡ patched (live self.old) at code operand }
        ensures length { count self.new ≡ count self.old }
    {
        self.instrs.set(at as usize, Instr { code, operand });
    }

    // Lets a jump that was laid before go to what is laid next.
    pub fn aim(&mut self, at: u32, code: u32)
        requires { at < count self.old }
        ensures code { live self.new ≡ aimed (live self.old) at code }
        ensures length { count self.new ≡ count self.old }
    {
        let target = self.next();
        self.patch(at, code, target);
    }

    // Lays one more instruction, by its opcode.
    pub fn lay(&mut self, opcode: Opcode, operand: u32)
        requires { count self.old < 12288 }
        ensures code { live self.new ≡ laid (live self.old) (opcode_number opcode) operand }
        ensures length { count self.new ≡ count self.old + 1 }
    {
        self.emit(u32::from(opcode), operand);
    }

    // Puts one instruction, by its opcode, in the place of another.
    pub fn lay_at(&mut self, at: u32, opcode: Opcode, operand: u32)
        requires { at < count self.old }
        ensures code { live self.new ≡ patched (live self.old) at (opcode_number opcode) operand }
        ensures length { count self.new ≡ count self.old }
    {
        self.patch(at, u32::from(opcode), operand);
    }

    // Lets a jump that was laid before, by its opcode, go to what is laid next.
    pub fn lay_jump(&mut self, at: u32, opcode: Opcode)
        requires { at < count self.old }
        ensures code { live self.new ≡ aimed (live self.old) at (opcode_number opcode) }
        ensures length { count self.new ≡ count self.old }
    {
        self.aim(at, u32::from(opcode));
    }

    // Drops a result that nothing wants.
    pub(crate) fn discard(&mut self, res: ValueType)
        requires { count self.old < 12288 }
        ensures code { live self.new ≡ dropped res (live self.old) }
        ensures length { AtMostOne (count self.old) (count self.new) }
    {
        if res != ValueType::Void {
            self.lay(Opcode::Discard, 0);
        }
    }
}
