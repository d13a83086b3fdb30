// One step of the marked machine.
ghost use Rattle.std.specs.Prelude.{◌≡◌};
ghost use Rattle.machine.specs.Contexts.{Makes, SameCells, state_of};
ghost use Rattle.machine.specs.State.{Ready};
ghost use Rattle.machine.specs.Step.{LeftStep, local, carried, stepped};

use crate::cells::Cell;
use crate::context::Context;
use crate::frames::Frame;
use crate::hosted::end_void;
use crate::registers::Flow;
use host::Host;
use image::fetch::Image;
use image::instruction::{Instruction, Local};
use language::faults::Halt;
use language::values::{Value, ValueType};

impl Context<'_> {
    // An instruction that touches the machine and its cells alone.
    #[inline(always)]
    fn carry_local(&mut self, frame: Frame, instruction: Local) -> Result<Flow, Halt>
        requires { Ready self.old.machine frame }
        ensures { Makes (local instruction frame) self.old result self.new }
    {
        match instruction {
            Local::PushNumber(number) => self.push(Cell::Number(number)),
            Local::PushTruth(truth) => self.push(Cell::Truth(truth)),
            Local::Load(slot) => self.load(frame, slot),
            Local::Store(slot) => self.store(frame, slot),
            Local::Operate(operator) => self.operate(frame, operator),
            Local::Not => self.negate(frame),
            Local::Discard => self.discard(frame),
            Local::Jump(target) => self.jump(target),
            Local::JumpIfFalse(target) => self.branch(frame, target),
            Local::Open(hops) => self.open(frame, hops),
            Local::Call(entry) => self.call(frame, entry),
            Local::Return => self.give_back(frame),
            Local::ReturnValue => self.give_back_value(frame),
        }
    }

    // Any instruction.
    fn carry_out<H: Host>(
        &mut self,
        instruction: Instruction,
        expected: ValueType,
        frame: Frame,
        host: &mut H,
    ) -> Result<Flow, Halt>
        requires { Ready self.old.machine frame }
        ensures state { LeftStep (carried instruction expected frame (H.means host.old) (state_of self.old)) result (state_of self.old) (H.means host.old) self.new.machine self.new.cells.now (H.means host.new) }
        ensures same { SameCells self.old self.new }
    {
        match instruction {
            Instruction::Local(instruction) => self.carry_local(frame, instruction),
            Instruction::Amount => {
                self.ask(frame, |field| Ok(Value::Number(host.amount(field)?)))
            }
            Instruction::Flag => { self.ask(frame, |field| Ok(Value::Truth(host.flag(field)?))) }
            Instruction::Post => self.post(frame, host),
            Instruction::End => {
                end_void(expected)?;
                Ok(Flow::Ended(None))
            }
            Instruction::EndValue => Ok(Flow::Ended(Some(self.end_value(frame, expected)?))),
        }
    }

    // One step: a lawful instruction, in a frame below the top. One that halts changes nothing and is no step.
    pub fn step<H: Host>(&mut self, image: Image, host: &mut H) -> Result<Flow, Halt>
        ensures state { LeftStep (stepped image.entry.words.now image.entry.header (H.means host.old) (state_of self.old)) result (state_of self.old) (H.means host.old) self.new.machine self.new.cells.now (H.means host.new) }
        ensures same { SameCells self.old self.new }
    {
        let instruction = image.fetch(self.machine.counter)?;
        let frame = self.own_frame()?;
        self.carry_out(instruction, image.header.result, frame, host)
    }
}
