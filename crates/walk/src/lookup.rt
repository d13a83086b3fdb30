// Finding names, and what those that are found stand for.
ghost use Rattle.std.specs.Prelude.{◌≡◌, ◌<◌, List, length};
ghost use Rattle.table.specs.declared.nodes.Node.{Node as Record};
ghost use Rattle.walk.specs.Lay.{live, count};
ghost use Rattle.walk.specs.Scopes.{newest as newest_of, declared as declared_at, variable_in, callable as callable_in, operand_of, result_of, parameters_of, opened, closed};
ghost use Rattle.walk.specs.Known.{name_at, Below, FoundBelow, thing_of, comes, AtMostOne};

use crate::codes::Code;
use crate::names::{Entry, Parameters, Variable, What};
use language::faults::{Fault, WalkRefusal};
use language::opcodes::Opcode;
use language::values::ValueType;

// The newest entry with a name.
pub fn newest(names: &[Entry], name: u32) -> Option<usize>
    ensures answer { result ≡ newest_of (name_at names.now) (length names.now) name }
    ensures within { Below result (length names.now) }
{
    names.iter().rposition(|entry| entry.name == name)
}

// The index of a name that must be declared.
pub(crate) fn find(names: &[Entry], place: u32, name: u32) -> Result<usize, Fault>
    ensures answer { result ≡ declared_at place (newest_of (name_at names.now) (length names.now) name) }
    ensures within { FoundBelow result (length names.now) }
{
    newest(names, name).ok_or(WalkRefusal::Undeclared.at(place))
}

impl Variable {
    // The operand of a read or an assignment: hops and slot.
    pub(crate) fn operand(self, level: u8) -> u32
        ensures { result ≡ operand_of level self }
    {
        256 * u32::from(level.saturating_sub(self.level)) + u32::from(self.slot)
    }
}

impl What {
    // What is read or assigned must be a variable.
    pub(crate) fn variable(self, place: u32, level: u8) -> Result<Variable, Fault>
        ensures { (table : List Record) → result ≡ variable_in place level (thing_of table self) }
    {
        let What::Variable { typed, slot } = self else {
            return Err(WalkRefusal::WrongKind.at(place));
        };
        Ok(Variable { typed, level, slot })
    }

    // What is called must be no variable.
    pub(crate) fn callable(self, place: u32) -> Result<(), Fault>
        ensures { (table : List Record) → result ≡ callable_in place (thing_of table self) }
    {
        if let What::Variable { .. } = self {
            return Err(WalkRefusal::WrongKind.at(place));
        }
        Ok(())
    }

    // The result of a call.
    pub(crate) fn result(self) -> ValueType
        ensures { (table : List Record) → result ≡ result_of (thing_of table self) }
    {
        match self {
            What::Variable { .. } | What::Post => ValueType::Void,
            What::Function { result, .. } => result,
            What::Amount => ValueType::Int,
            What::Flag => ValueType::Bool,
        }
    }

    // The parameters of a call.
    pub(crate) fn parameters(self) -> Parameters
        ensures { (table : List Record) → comes table result ≡ parameters_of (thing_of table self) }
    {
        match self {
            What::Variable { .. } => Parameters::NoInts,
            What::Function { parameters, .. } => Parameters::Listed(parameters),
            What::Amount | What::Flag => Parameters::OneInt,
            What::Post => Parameters::TwoInts,
        }
    }

    // A call of a function begins with links to the frame that declared it.
    pub(crate) fn open(self, level: u8, declared: u8, code: &mut Code)
        requires { count code.old < 12288 }
        ensures code { (table : List Record) → live code.new ≡ opened level declared (thing_of table self) (live code.old) }
        ensures length { AtMostOne (count code.old) (count code.new) }
    {
        if let What::Function { .. } = self {
            code.lay(Opcode::OpenLinks, u32::from(level.saturating_sub(declared)));
        }
    }

    // And ends with the call itself.
    pub(crate) fn close(self, code: &mut Code)
        requires { count code.old < 12288 }
        ensures code { (table : List Record) → live code.new ≡ closed (thing_of table self) (live code.old) }
        ensures length { AtMostOne (count code.old) (count code.new) }
    {
        match self {
            What::Variable { .. } => {}
            What::Function { entry, .. } => code.lay(Opcode::Call, entry),
            What::Amount => code.lay(Opcode::Amount, 0),
            What::Flag => code.lay(Opcode::Flag, 0),
            What::Post => code.lay(Opcode::Post, 0),
        }
    }
}
