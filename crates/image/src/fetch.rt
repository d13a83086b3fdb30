// From words to instructions. A word that is no lawful code or operand is trouble, and never read past.
ghost use Rattle.std.specs.Prelude.{◌≡◌, ◌+◌, ◌*◌, ◌<◌, ◌≤◌, length, OnOk};
ghost use Rattle.image.specs.Fetch.{bare, either, literal, slot, target, call, decoded, fetched};
ghost use Rattle.image.specs.declared.instruction.Instruction.TheVariants as instructions;

use crate::instruction::{Entry, Header, Instruction, Local, Slot};
use language::faults::{Halt, Trouble};
use language::opcodes::Opcode;

// An image: its words, and what is known of them. All its codes and operands lie within the words.
#[derive(Clone, Copy, PartialEq, Eq, Debug)]
pub struct Image<'a> {
    pub words: &'a [u32],
    pub header: Header,
    ghost whole: { 2 + 2 * header.count ≤ length words.now },
}

// An instruction whose operand must be 0.
fn bare_of(operand: u32, instruction: Instruction) -> Result<Instruction, Halt>
    ensures { result ≡ bare operand instruction }
{
    if operand != 0 {
        return Err(Trouble::Unlawful.into());
    }
    Ok(instruction)
}

// The first at operand 0, the second at 1.
fn either_of(operand: u32, first: Instruction, second: Instruction) -> Result<Instruction, Halt>
    ensures { result ≡ either operand first second }
{
    match operand {
        0 => Ok(first),
        1 => Ok(second),
        _ => Err(Trouble::Unlawful.into()),
    }
}

// The number that an operand stands for.
fn literal_of(operand: u32) -> Result<Instruction, Halt>
    ensures { result ≡ literal operand }
{
    let number = i32::try_from(operand).map_err(|_| Trouble::Unlawful)?;
    Ok(Local::PushNumber(number).into())
}

fn slot_of(operand: u32) -> Slot
    ensures { result ≡ slot operand }
{
    Slot {
        hops: operand / 256,
        index: operand % 256,
    }
}

impl Image<'_> {
    // A jump, where its target is below the number of codes.
    fn target_of(self, operand: u32, jump: Local) -> Result<Instruction, Halt>
        ensures { result ≡ target self.entry.header operand (instructions.Local jump) }
    {
        if operand >= self.header.count {
            return Err(Trouble::Unlawful.into());
        }
        Ok(jump.into())
    }

    // A call, where its target is an entry.
    fn call_of(self, operand: u32) -> Result<Instruction, Halt>
        ensures { result ≡ call self.entry.words.now self.entry.header operand }
    {
        if operand >= self.header.count {
            return Err(Trouble::Unlawful.into());
        }
        let at = operand as usize;
        if self.words[2 + at] != u32::from(Opcode::Entry) {
            return Err(Trouble::Unlawful.into());
        }
        let packed = self.words[2 + self.header.count as usize + at];
        let entry = Entry {
            start: operand + 1,
            parameters: packed / 256,
            others: packed % 256,
        };
        Ok(Local::Call(entry).into())
    }

    // The instruction that a code and its operand stand for.
    #[inline(always)]
    fn decode(self, code: u32, operand: u32) -> Result<Instruction, Halt>
        ensures { result ≡ decoded self.entry.words.now self.entry.header code operand }
    {
        let opcode = Opcode::try_from(code).map_err(|_| Trouble::Unlawful)?;
        match opcode {
            Opcode::PushNumber => literal_of(operand),
            Opcode::PushTruth => either_of(
                operand,
                Local::PushTruth(false).into(),
                Local::PushTruth(true).into(),
            ),
            Opcode::Load => Ok(Local::Load(slot_of(operand)).into()),
            Opcode::Store => Ok(Local::Store(slot_of(operand)).into()),
            Opcode::Operate(operator) => bare_of(operand, Local::Operate(operator).into()),
            Opcode::Not => bare_of(operand, Local::Not.into()),
            Opcode::Discard => bare_of(operand, Local::Discard.into()),
            Opcode::Jump => self.target_of(operand, Local::Jump(operand)),
            Opcode::JumpIfFalse => self.target_of(operand, Local::JumpIfFalse(operand)),
            Opcode::OpenLinks => Ok(Local::Open(operand).into()),
            Opcode::Call => self.call_of(operand),
            Opcode::Entry => Err(Trouble::Unlawful.into()),
            Opcode::Return => either_of(operand, Local::Return.into(), Local::ReturnValue.into()),
            Opcode::Amount => bare_of(operand, Instruction::Amount),
            Opcode::Flag => bare_of(operand, Instruction::Flag),
            Opcode::Post => bare_of(operand, Instruction::Post),
            Opcode::End => either_of(operand, Instruction::End, Instruction::EndValue),
        }
    }

    // The instruction at a program counter.
    #[inline(always)]
    pub fn fetch(self, counter: u32) -> Result<Instruction, Halt>
        ensures value { result ≡ fetched self.entry.words.now self.entry.header counter }
        ensures bound { OnOk result (counter < self.entry.header.count) }
    {
        let count = self.header.count;
        if counter >= count {
            return Err(Trouble::Unlawful.into());
        }
        let at = counter as usize;
        self.decode(self.words[2 + at], self.words[2 + count as usize + at])
    }
}
