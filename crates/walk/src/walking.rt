// The walk over expressions and statements, in table order, with the code laid as it goes.
ghost use Rattle.std.specs.Prelude.{◌*◌, ◌<◌, ◌≤◌, length};
ghost use Rattle.table.specs.Listed.{end_at};
ghost use Rattle.table.specs.declared.kinds.Kind.TheVariants as kinds;
ghost use Rattle.walk.specs.Lay.{count};
ghost use Rattle.walk.specs.Walked.{GaveArguments, GaveAssignment, GaveBlock, GaveCall, GaveCallStatement, GaveChoice, GaveElse, GaveExpression, GaveNot, GaveOperation, GaveRead, GaveRow, GaveStatement, GaveThen, GaveValueBlock, Grew, GrewArguments, GrewCall, GrewOne, GrewRow, HasArguments, HasAssignment, HasBlock, HasCall, HasCallStatement, HasChoice, HasElse, HasExpression, HasNot, HasOperation, HasRow, HasStatement, HasThen, HasValueBlock, IsKind};

use crate::codes::Code;
use crate::contexts::Context;
use crate::flags::Flags;
use crate::lookup::find;
use crate::names::{Parameters, Tally};
use crate::reading::{end_of, node_at};
use crate::typing::{choice_type, negation_type, operation_type};
use language::faults::{Fault, WalkRefusal};
use language::opcodes::Opcode;
use language::values::{Operator, ValueType};
use table::checking::ChildNodes;
use table::kinds::{Class, Kind};
use table::nodes::Node;

// Stays with how far the code has come in each contract: that relates the code to a node, and is no fact of one value.
impl Context<'_> {
    // A read: declared, a variable, set.
    #[tactic(auto, using(crate::proofs::Seen::found_seen))]
    fn read(&self, set: &Flags, code: &mut Code, node: Node) -> Result<ValueType, Fault>
        requires room { count code.old < 12288 }
        ensures answer { GaveRead self.now set.now code.old node result code.new }
        ensures room { GrewOne result (count code.old) (count code.new) }
    {
        let k = find(self.names, node.place, node.value)?;
        let entry = self.names[k];
        let variable = entry.what.variable(node.place, entry.level)?;
        set.must_be_set(node.place, k)?;
        code.lay(Opcode::Load, variable.operand(self.level));
        Ok(variable.typed)
    }

    // A not: its operand, then 15.
    #[cycle(expressions_and_statements)]
    fn negation(&self, set: &Flags, code: &mut Code, i: usize) -> Result<ValueType, Fault>
        requires room { count code.old ≤ 3 * i }
        requires tree { HasNot self.now.nodes.now i }
        ensures answer { GaveNot self.now set.now code.old i result code.new }
        ensures room { Grew result self.now.nodes.now (count code.old) (count code.new) i (end_at self.now.nodes.now i) }
    {
        let operand = self.expression(set, code, i + 1)?;
        code.lay(Opcode::Not, 0);
        negation_type(node_at(self.nodes, i).place, operand)
    }

    // An operator: its operands, then 15.
    #[cycle(expressions_and_statements)]
    fn operation(&self, set: &Flags, code: &mut Code, i: usize) -> Result<ValueType, Fault>
        requires room { count code.old ≤ 3 * i }
        requires tree { HasOperation self.now.nodes.now i }
        ensures answer { GaveOperation self.now set.now code.old i result code.new }
        ensures room { Grew result self.now.nodes.now (count code.old) (count code.new) i (end_at self.now.nodes.now i) }
    {
        let left = self.expression(set, code, i + 1)?;
        let second = end_of(self.nodes, i + 1);
        let right = self.expression(set, code, second)?;
        let node = node_at(self.nodes, i);
        let Ok(operator) = Operator::try_from(node.sub) else {
            unreachable!()
        };
        code.lay(Opcode::Operate(operator), 0);
        operation_type(node.place, operator, left, right)
    }

    // An if with a value: condition and both value blocks, then one 15.
    #[cycle(expressions_and_statements)]
    fn choice(&self, set: &Flags, code: &mut Code, i: usize) -> Result<ValueType, Fault>
        requires room { count code.old ≤ 3 * i }
        requires tree { HasChoice self.now.nodes.now i }
        ensures answer { GaveChoice self.now set.now code.old i result code.new }
        ensures room { Grew result self.now.nodes.now (count code.old) (count code.new) i (end_at self.now.nodes.now i) }
    {
        let condition = self.expression(set, code, i + 1)?;
        let test = code.next();
        code.lay(Opcode::JumpIfFalse, 0);
        let one = end_of(self.nodes, i + 1);
        let first = self.value_block(set, code, one)?;
        let jump = code.next();
        code.lay(Opcode::Jump, 0);
        code.lay_jump(test, Opcode::JumpIfFalse);
        let other = end_of(self.nodes, one);
        let second = self.value_block(set, code, other)?;
        code.lay_jump(jump, Opcode::Jump);
        choice_type(node_at(self.nodes, i).place, condition, first, second)
    }

    // A value block: its statements, then its expression; what it sets is forgotten.
    #[cycle(expressions_and_statements)]
    fn value_block(&self, set: &Flags, code: &mut Code, i: usize) -> Result<ValueType, Fault>
        requires room { count code.old ≤ 3 * i }
        requires tree { HasValueBlock self.now.nodes.now i }
        ensures answer { GaveValueBlock self.now set.now code.old i result code.new }
        ensures room { Grew result self.now.nodes.now (count code.old) (count code.new) i (end_at self.now.nodes.now i) }
    {
        let stop = end_of(self.nodes, i);
        let (inner, last) = self.statements(set, code, i + 1, stop)?;
        self.expression(&inner, code, last)
    }

    // The arguments of a call, each held against its parameter.
    #[cycle(expressions_and_statements)]
    fn arguments(
        &self,
        set: &Flags,
        code: &mut Code,
        from: usize,
        stop: usize,
        left: Parameters,
    ) -> Result<Tally, Fault>
        requires room { count code.old ≤ 3 * from }
        requires tree { HasArguments self.now.nodes.now from stop }
        requires inside { stop ≤ length self.now.nodes.now }
        ensures answer { GaveArguments self.now set.now code.old from stop left result code.new }
        ensures room { GrewArguments result (count code.old) (count code.new) from stop }
    {
        let mut tally = Tally {
            left,
            surplus: false,
            matched: true,
        };
        let nodes = self.nodes;
        let children = ChildNodes {
            nodes,
            at: from,
            stop,
        };
        for (at, _) in children {
            let argument = self.expression(set, code, at)?;
            tally = tally.take(nodes, argument);
        }
        Ok(tally)
    }

    // A call of either kind: 13 and 14, its arguments, then 16 and 15.
    #[cycle(expressions_and_statements)]
    #[tactic(auto, using(crate::proofs::Seen::found_seen))]
    fn invoke(&self, set: &Flags, code: &mut Code, i: usize) -> Result<ValueType, Fault>
        requires room { count code.old ≤ 3 * i }
        requires tree { HasCall self.now.nodes.now i }
        ensures answer { GaveCall self.now set.now code.old i result code.new }
        ensures room { GrewCall result self.now.nodes.now (count code.old) (count code.new) i (end_at self.now.nodes.now i) }
    {
        let node = node_at(self.nodes, i);
        let k = find(self.names, node.place, node.value)?;
        let entry = self.names[k];
        entry.what.callable(node.place)?;
        entry.what.open(self.level, entry.level, code);
        let stop = node.end as usize;
        let tally = self.arguments(set, code, i + 1, stop, entry.what.parameters())?;
        entry.what.close(code);
        tally.judge(self.nodes, node.place, entry.what.result())
    }

    // An expression.
    #[cycle(expressions_and_statements)]
    pub fn expression(&self, set: &Flags, code: &mut Code, i: usize) -> Result<ValueType, Fault>
        requires room { count code.old ≤ 3 * i }
        requires tree { HasExpression self.now.nodes.now i }
        ensures answer { GaveExpression self.now set.now code.old i result code.new }
        ensures room { Grew result self.now.nodes.now (count code.old) (count code.new) i (end_at self.now.nodes.now i) }
    {
        let node = node_at(self.nodes, i);
        let Some(kind) = node.kind() else {
            unreachable!()
        };
        match kind {
            Kind::Integer => {
                code.lay(Opcode::PushNumber, node.value);
                Ok(ValueType::Int)
            }
            Kind::Truth => {
                code.lay(Opcode::PushTruth, node.value);
                Ok(ValueType::Bool)
            }
            Kind::Read => self.read(set, code, node),
            Kind::Not => self.negation(set, code, i),
            Kind::Operator => self.operation(set, code, i),
            Kind::IfExpression => self.choice(set, code, i),
            Kind::Call => self.invoke(set, code, i),
            Kind::Program
            | Kind::Variable
            | Kind::Function
            | Kind::Parameter
            | Kind::Body
            | Kind::Assignment
            | Kind::CallStatement
            | Kind::IfStatement
            | Kind::Block
            | Kind::ValueBlock => unreachable!(),
        }
    }

    // An assignment: 13 and 14, its expression, 15; only then is its variable set.
    #[cycle(expressions_and_statements)]
    #[tactic(auto, using(crate::proofs::Seen::found_seen))]
    fn assignment(&self, set: &Flags, code: &mut Code, i: usize) -> Result<Flags, Fault>
        requires room { count code.old ≤ 3 * i }
        requires tree { HasAssignment self.now.nodes.now i }
        ensures answer { GaveAssignment self.now set.now code.old i result code.new }
        ensures room { Grew result self.now.nodes.now (count code.old) (count code.new) i (end_at self.now.nodes.now i) }
    {
        let node = node_at(self.nodes, i);
        let k = find(self.names, node.place, node.value)?;
        let entry = self.names[k];
        let variable = entry.what.variable(node.place, entry.level)?;
        let value = self.expression(set, code, i + 1)?;
        code.lay(Opcode::Store, variable.operand(self.level));
        if value != variable.typed {
            return Err(WalkRefusal::WrongType.at(node.place));
        }
        Ok(set.mark(k, true))
    }

    // A call that stands alone: a result is dropped.
    #[cycle(expressions_and_statements)]
    fn call_statement(&self, set: &Flags, code: &mut Code, i: usize) -> Result<Flags, Fault>
        requires room { count code.old ≤ 3 * i }
        requires tree { HasCallStatement self.now.nodes.now i }
        ensures answer { GaveCallStatement self.now set.now code.old i result code.new }
        ensures room { Grew result self.now.nodes.now (count code.old) (count code.new) i (end_at self.now.nodes.now i) }
    {
        let result = self.invoke(set, code, i)?;
        code.discard(result);
        Ok(*set)
    }

    // An if with no else: what was set before is set.
    #[cycle(expressions_and_statements)]
    fn if_then(&self, set: &Flags, code: &mut Code, i: usize) -> Result<Flags, Fault>
        requires room { count code.old ≤ 3 * i }
        requires tree { HasThen self.now.nodes.now i }
        ensures answer { GaveThen self.now set.now code.old i result code.new }
        ensures room { Grew result self.now.nodes.now (count code.old) (count code.new) i (end_at self.now.nodes.now i) }
    {
        let condition = self.expression(set, code, i + 1)?;
        let test = code.next();
        code.lay(Opcode::JumpIfFalse, 0);
        let one = end_of(self.nodes, i + 1);
        self.block(set, code, one)?;
        code.lay_jump(test, Opcode::JumpIfFalse);
        if condition != ValueType::Bool {
            return Err(WalkRefusal::WrongType.at(node_at(self.nodes, i).place));
        }
        Ok(*set)
    }

    // An if with an else: what both blocks leave set is set.
    #[cycle(expressions_and_statements)]
    fn if_else(&self, set: &Flags, code: &mut Code, i: usize) -> Result<Flags, Fault>
        requires room { count code.old ≤ 3 * i }
        requires tree { HasElse self.now.nodes.now i }
        ensures answer { GaveElse self.now set.now code.old i result code.new }
        ensures room { Grew result self.now.nodes.now (count code.old) (count code.new) i (end_at self.now.nodes.now i) }
    {
        let condition = self.expression(set, code, i + 1)?;
        let test = code.next();
        code.lay(Opcode::JumpIfFalse, 0);
        let one = end_of(self.nodes, i + 1);
        let first = self.block(set, code, one)?;
        let jump = code.next();
        code.lay(Opcode::Jump, 0);
        code.lay_jump(test, Opcode::JumpIfFalse);
        let other = end_of(self.nodes, one);
        let second = self.block(set, code, other)?;
        code.lay_jump(jump, Opcode::Jump);
        if condition != ValueType::Bool {
            return Err(WalkRefusal::WrongType.at(node_at(self.nodes, i).place));
        }
        Ok(first.both(&second))
    }

    // An if, with an else where its first block ends before it.
    #[cycle(expressions_and_statements)]
    fn conditional(&self, set: &Flags, code: &mut Code, i: usize) -> Result<Flags, Fault>
        requires room { count code.old ≤ 3 * i }
        requires tree { HasStatement self.now.nodes.now i }
        requires kind { IsKind self.now.nodes.now i kinds.IfStatement }
        ensures answer { GaveStatement self.now set.now code.old i result code.new }
        ensures room { Grew result self.now.nodes.now (count code.old) (count code.new) i (end_at self.now.nodes.now i) }
    {
        let one = end_of(self.nodes, i + 1);
        if end_of(self.nodes, one) < end_of(self.nodes, i) {
            self.if_else(set, code, i)
        } else {
            self.if_then(set, code, i)
        }
    }

    // A block: its statements, in their order.
    #[cycle(expressions_and_statements)]
    fn block(&self, set: &Flags, code: &mut Code, i: usize) -> Result<Flags, Fault>
        requires room { count code.old ≤ 3 * i }
        requires tree { HasBlock self.now.nodes.now i }
        ensures answer { GaveBlock self.now set.now code.old i result code.new }
        ensures room { Grew result self.now.nodes.now (count code.old) (count code.new) i (end_at self.now.nodes.now i) }
    {
        let stop = end_of(self.nodes, i);
        let (after, _) = self.statements(set, code, i + 1, stop)?;
        Ok(after)
    }

    // A statement: what it leaves set.
    #[cycle(expressions_and_statements)]
    fn statement(&self, set: &Flags, code: &mut Code, i: usize) -> Result<Flags, Fault>
        requires room { count code.old ≤ 3 * i }
        requires tree { HasStatement self.now.nodes.now i }
        ensures answer { GaveStatement self.now set.now code.old i result code.new }
        ensures room { Grew result self.now.nodes.now (count code.old) (count code.new) i (end_at self.now.nodes.now i) }
    {
        let Some(kind) = node_at(self.nodes, i).kind() else {
            unreachable!()
        };
        match kind {
            Kind::Assignment => self.assignment(set, code, i),
            Kind::CallStatement => self.call_statement(set, code, i),
            Kind::IfStatement => self.conditional(set, code, i),
            Kind::Program
            | Kind::Variable
            | Kind::Function
            | Kind::Parameter
            | Kind::Body
            | Kind::Block
            | Kind::Integer
            | Kind::Truth
            | Kind::Read
            | Kind::Not
            | Kind::Operator
            | Kind::IfExpression
            | Kind::ValueBlock
            | Kind::Call => unreachable!(),
        }
    }

    // Statements in their order, each from what the one before left set; and the node where they end.
    #[cycle(expressions_and_statements)]
    pub fn statements(
        &self,
        set: &Flags,
        code: &mut Code,
        from: usize,
        stop: usize,
    ) -> Result<(Flags, usize), Fault>
        requires room { count code.old ≤ 3 * from }
        requires tree { HasRow self.now.nodes.now from stop }
        requires inside { stop ≤ length self.now.nodes.now }
        ensures answer { GaveRow self.now set.now code.old from stop result code.new }
        ensures room { GrewRow result (count code.old) (count code.new) from stop }
    {
        let mut flags = *set;
        let children = ChildNodes {
            nodes: self.nodes,
            at: from,
            stop,
        };
        for (at, node) in children {
            if node.class() != Class::Statement {
                return Ok((flags, at));
            }
            flags = self.statement(&flags, code, at)?;
        }
        Ok((flags, stop))
    }
}
