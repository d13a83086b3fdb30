// The names of the codes, for people.
#![tactic(auto)]

ghost use Rattle.std.specs.Prelude.{◌≡◌};
ghost use Rattle.trace.specs.Names.{name, name_of, operator_name};

use language::opcodes::Opcode;
use language::values::Operator;

fn operator_name(operator: Operator) -> &'static str
    ensures { result.now ≡ operator_name operator }
{
    match operator {
        Operator::Multiply => "multiply",
        Operator::Divide => "divide",
        Operator::Add => "add",
        Operator::Subtract => "subtract",
        Operator::Less => "less",
        Operator::LessOrEqual => "less or equal",
        Operator::Greater => "greater",
        Operator::GreaterOrEqual => "greater or equal",
        Operator::Equal => "equal",
        Operator::And => "and",
        Operator::Or => "or",
    }
}

fn name(opcode: Opcode) -> &'static str
    ensures { result.now ≡ name opcode }
{
    match opcode {
        Opcode::PushNumber => "push number",
        Opcode::PushTruth => "push truth",
        Opcode::Load => "load",
        Opcode::Store => "store",
        Opcode::Operate(operator) => operator_name(operator),
        Opcode::Not => "not",
        Opcode::Discard => "discard",
        Opcode::Jump => "jump",
        Opcode::JumpIfFalse => "jump if false",
        Opcode::OpenLinks => "open links",
        Opcode::Call => "call",
        Opcode::Entry => "entry",
        Opcode::Return => "return",
        Opcode::Amount => "amount",
        Opcode::Flag => "flag",
        Opcode::Post => "post",
        Opcode::End => "end",
    }
}

// The name of a code, for people.
// Stays over a bare number: a word of an image may be no code, and has a name too.
pub fn name_of(code: u32) -> &'static str
    ensures { result.now ≡ name_of code }
{
    Opcode::try_from(code).map_or("no code", name)
}
