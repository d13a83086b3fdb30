// The instructions that turn to the host, and those that end a run.
ghost use Rattle.std.specs.Prelude.{◌≡◌, ℕ, ◌+◌, ◌≤◌, Result, OnOk};
ghost use Rattle.host.specs.Serves.{numbered};
ghost use Rattle.language.specs.declared.faults.Halt.{Halt};
ghost use Rattle.language.specs.declared.values.Value.{Value};
ghost use Rattle.machine.specs.Contexts.{SameCells, state_of};
ghost use Rattle.machine.specs.State.{Does, Ready};
ghost use Rattle.machine.specs.Step.{LeftPosted, field_on_top, asked_for, posted, ends_void, ends_with, end_value};

use crate::cells::both_set;
use crate::context::Context;
use crate::frames::Frame;
use crate::registers::Flow;
use host::Host;
use language::faults::{Halt, Stop, Trouble};
use language::values::{Value, ValueType};

// Fields and accounts have numbers from 0 to 255.
fn numbered_of(number: i32) -> Result<u8, Halt>
    ensures { result ≡ numbered number }
{
    u8::try_from(number).map_err(|_| Stop::NoSuchNumber.into())
}

impl Context<'_> {
    // The field number on top.
    fn field(&self, frame: Frame) -> Result<u8, Halt>
        requires { Ready self.now.machine frame }
        ensures value { result ≡ field_on_top frame (state_of self.now) }
        ensures room { OnOk result (frame.end + 1 ≤ self.now.machine.top) }
    {
        self.holds(frame, 1)?;
        numbered_of(self.cells[self.machine.top - 1].number()?)
    }

    // Takes a field number and pushes what is answered to it.
    pub(crate) fn ask<F: FnOnce(u8) -> Result<Value, Halt>>(
        &mut self,
        frame: Frame,
        answer: F,
    ) -> Result<Flow, Halt>
        requires ready { Ready self.old.machine frame }
        requires may { F.IsAlwaysCallable answer }
        ensures state { (gives : ℕ → Result Value Halt) → ((field : ℕ) (r : Result Value Halt) → F.post answer field r → r ≡ gives field) → Does (asked_for gives frame) self.old.machine self.old.cells.now result self.new.machine self.new.cells.now }
        ensures same { SameCells self.old self.new }
    {
        let field = self.field(frame)?;
        let value = answer(field)?;
        self.cells[self.machine.top - 1] = value.into();
        self.machine.counter += 1;
        Ok(Flow::Next)
    }

    // Takes a value, then an account, and posts.
    pub(crate) fn post<H: Host>(&mut self, frame: Frame, host: &mut H) -> Result<Flow, Halt>
        requires { Ready self.old.machine frame }
        ensures state { LeftPosted (posted (H.means host.old) frame (state_of self.old)) result (state_of self.old) (H.means host.old) self.new.machine self.new.cells.now (H.means host.new) }
        ensures same { SameCells self.old self.new }
    {
        self.holds(frame, 2)?;
        let account = self.cells[self.machine.top - 2];
        let value = self.cells[self.machine.top - 1];
        both_set(account, value)?;
        let (account, value) = (account.number()?, value.number()?);
        let account = numbered_of(account)?;
        host.post(account, value)?;
        self.machine.top -= 2;
        self.machine.counter += 1;
        Ok(Flow::Next)
    }
}

// Whether a run may end with nothing.
pub(crate) fn end_void(expected: ValueType) -> Result<(), Halt>
    ensures { result ≡ ends_void expected }
{
    if expected != ValueType::Void {
        return Err(Trouble::WrongMark.into());
    }
    Ok(())
}

// The value, where a run may end with it.
fn end_with(expected: ValueType, value: Value) -> Result<Value, Halt>
    ensures { result ≡ ends_with expected value }
{
    match (expected, value) {
        (ValueType::Int, Value::Number(_)) | (ValueType::Bool, Value::Truth(_)) => Ok(value),
        _ => Err(Trouble::WrongMark.into()),
    }
}

impl Context<'_> {
    // The value that the run ends with.
    pub(crate) fn end_value(&self, frame: Frame, expected: ValueType) -> Result<Value, Halt>
        requires { Ready self.now.machine frame }
        ensures { result ≡ end_value expected frame (state_of self.now) }
    {
        self.holds(frame, 1)?;
        end_with(expected, self.cells[self.machine.top - 1].value()?)
    }
}
