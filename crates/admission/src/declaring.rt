// The walk over declarations and bodies, in table order, with the code laid as it goes. Only declarations change the name list.
ghost use Rattle.std.specs.Prelude.{◌≡◌, ◌+◌, ◌*◌, ◌<◌, ◌≤◌, length};
ghost use Rattle.rules.specs.Translate as translation;
ghost use Rattle.table.specs.Listed.{end_at};
ghost use Rattle.walk.specs.Lay.{count};
ghost use Rattle.walk.specs.Walked.{Grew};
ghost use Rattle.admission.specs.Standing.{Widened};
ghost use Rattle.admission.specs.Walks.{HasFinal, GaveFinal, GrewFinal, HasParameters, GaveParameters, GrewParameters, HasDeclaration, GaveDeclaration, HasFunction, GaveFunction, HasMembers, GaveDeclarations, GrewDeclarations, GaveInside, GrewInside, HasBody, GaveBody, GaveEnclosed, GrewEnclosed, Kept};

use crate::scopes::{Names, Scope};
use crate::tables::Table;
use language::faults::{Fault, WalkRefusal};
use language::opcodes::Opcode;
use language::values::ValueType;
use table::checking::ChildNodes;
use table::kinds::{Class, Kind};
use walk::codes::Code;
use walk::contexts::Context;
use walk::flags::Flags;
use walk::names::What;
use walk::reading::{end_of, node_at};
use walk::typing::type_of;

// The operand of a return or an end: whether there is a value.
pub(crate) fn gives(typed: ValueType) -> u32
    ensures { result ≡ translation.gives typed }
{
    u32::from(typed != ValueType::Void)
}

// What ends a body or a program: an expression, or nothing.
fn ending(
    context: &Context,
    flags: &Flags,
    code: &mut Code,
    at: usize,
    stop: usize,
) -> Result<ValueType, Fault>
    requires room { count code.old ≤ 3 * at }
    requires tree { HasFinal context.now.nodes.now at stop }
    ensures answer { GaveFinal context.now flags.now code.old at stop result code.new }
    ensures room { GrewFinal result (count code.old) (count code.new) at stop }
{
    if at < stop {
        context.expression(flags, code, at)
    } else {
        Ok(ValueType::Void)
    }
}

// Puts the scope around a function back where it goes out of scope, on every way out of the function.
struct Guard<'a> {
    names: &'a mut Names,
    around: Scope,
}

impl Drop for Guard<'_> {
    fn drop(self)
        ensures restored { self.exit.0.now.scope ≡ self.entry.around }
        ensures entries { self.exit.0.now.entries ≡ self.entry.names.now.entries }
    {
        self.names.scope = self.around;
        let Guard {
            names: _,
            around: _,
        } = self;
    }
}

// Stays with what each call does to names and code in its contract (names kept, widened, code grown): those relate before and after, and are no facts of one value.
// Stays with two loops over children, as the walk has two: they differ in what they call, and what a closure changes in what it captures is lost to the proof.
// Stays with names and code beside the table: one struct of the three would hold the code behind a reference of its own, and each contract and the guard's drop would have to say besides that it is still the same one, and the same table.
impl Table<'_> {
    // The parameters from one node on; the node where they end.
    fn parameters(self, names: &mut Names, from: usize, stop: usize) -> Result<usize, Fault>
        requires { HasParameters self.nodes.now from stop }
        ensures answer { GaveParameters self.entry.nodes.now names.old from stop result names.new }
        ensures widened { Widened result names.old names.new }
        ensures on { GrewParameters result from }
    {
        let children = ChildNodes {
            nodes: self.nodes,
            at: from,
            stop,
        };
        for (at, node) in children {
            if node.class() != Class::Parameter {
                return Ok(at);
            }
            names.declare(node, true)?;
        }
        Ok(stop)
    }

    // A variable or a function.
    #[cycle(declarations_and_bodies)]
    fn declaration(self, names: &mut Names, code: &mut Code, i: usize) -> Result<(), Fault>
        requires room { count code.old ≤ 3 * i }
        requires tree { HasDeclaration self.nodes.now i }
        ensures answer { GaveDeclaration self.entry.nodes.now names.old code.old i result names.new code.new }
        ensures widened { Widened result names.old names.new }
        ensures room { Grew result self.entry.nodes.now (count code.old) (count code.new) i (end_at self.entry.nodes.now i) }
    {
        let node = node_at(self.nodes, i);
        if node.kind() == Some(Kind::Function) {
            self.function(names, code, i)
        } else {
            names.declare(node, false)
        }
    }

    // Declarations from one node on; the node where they end.
    #[cycle(declarations_and_bodies)]
    fn declarations(
        self,
        names: &mut Names,
        code: &mut Code,
        from: usize,
        stop: usize,
    ) -> Result<usize, Fault>
        requires room { count code.old ≤ 3 * from }
        requires tree { HasMembers self.nodes.now from stop }
        ensures answer { GaveDeclarations self.entry.nodes.now names.old code.old from stop result names.new code.new }
        ensures widened { Widened result names.old names.new }
        ensures room { GrewDeclarations result (count code.old) (count code.new) from stop }
    {
        let children = ChildNodes {
            nodes: self.nodes,
            at: from,
            stop,
        };
        for (at, node) in children {
            if node.class() != Class::Declaration {
                return Ok(at);
            }
            self.declaration(names, code, at)?;
        }
        Ok(stop)
    }

    // The inside of a body or a program: its entry, with the parameters and the other slots of its frame; declarations; statements; ending.
    #[cycle(declarations_and_bodies)]
    pub(crate) fn inside(
        self,
        names: &mut Names,
        code: &mut Code,
        from: usize,
        stop: usize,
    ) -> Result<ValueType, Fault>
        requires room { count code.old + 3 ≤ 3 * from }
        requires within { (stop ≤ length self.nodes.now) × (from ≤ length self.nodes.now) }
        requires tree { HasMembers self.nodes.now from stop }
        ensures answer { GaveInside self.entry.nodes.now names.old code.old from stop result code.new }
        ensures kept { Kept result names.old names.new }
        ensures room { GrewInside result (count code.old) (count code.new) from stop }
    {
        let parameters = names.scope.slots;
        let entry = code.next();
        code.lay(Opcode::Entry, 0);
        let at = self.declarations(names, code, from, stop)?;
        let others = u32::from(names.scope.slots - parameters);
        code.lay_at(entry, Opcode::Entry, 256 * u32::from(parameters) + others);
        let context = Context {
            nodes: self.nodes,
            names: names.known(),
            level: names.scope.level,
        };
        let (flags, last) = context.statements(&names.scope.flags, code, at, stop)?;
        ending(&context, &flags, code, last, stop)
    }

    // A body has its function's result type.
    #[cycle(declarations_and_bodies)]
    fn body(
        self,
        names: &mut Names,
        code: &mut Code,
        i: usize,
        wanted: ValueType,
    ) -> Result<(), Fault>
        requires room { count code.old ≤ 3 * i }
        requires tree { HasBody self.nodes.now i }
        ensures answer { GaveBody self.entry.nodes.now names.old code.old i wanted result code.new }
        ensures kept { Kept result names.old names.new }
        ensures room { GrewInside result (count code.old) (count code.new) (i + 1) (end_at self.entry.nodes.now i) }
    {
        let stop = end_of(self.nodes, i);
        let found = self.inside(names, code, i + 1, stop)?;
        if found != wanted {
            return Err(WalkRefusal::WrongType.at(node_at(self.nodes, i).place));
        }
        Ok(())
    }

    // A function's parameters and its body, in a scope of their own: names of its own, one level further in, until its end.
    #[cycle(declarations_and_bodies)]
    fn enclosed(
        self,
        names: &mut Names,
        code: &mut Code,
        i: usize,
        wanted: ValueType,
    ) -> Result<(), Fault>
        requires shallow { names.old.scope.level < 32 }
        requires room { count code.old ≤ 3 * (i + 1) }
        requires tree { HasParameters self.nodes.now (i + 1) (end_at self.nodes.now i) }
        ensures answer { GaveEnclosed self.entry.nodes.now names.old code.old i wanted result code.new }
        ensures restored { names.new.scope ≡ names.old.scope }
        ensures kept { Kept result names.old names.new }
        ensures room { GrewEnclosed result (count code.old) (count code.new) i (end_at self.entry.nodes.now i) }
    {
        let around = names.scope;
        let guard = Guard { names, around };
        guard.names.scope = Scope {
            height: around.height,
            level: around.level + 1,
            floor: around.height,
            slots: 0,
            flags: around.flags,
        };
        let stop = end_of(self.nodes, i);
        let at = self.parameters(guard.names, i + 1, stop)?;
        self.body(guard.names, code, at, wanted)
    }

    // A function: its name enters the scope around it, then a jump past it, its parameters and body, a return.
    #[cycle(declarations_and_bodies)]
    fn function(self, names: &mut Names, code: &mut Code, i: usize) -> Result<(), Fault>
        requires room { count code.old ≤ 3 * i }
        requires tree { HasFunction self.nodes.now i }
        ensures answer { GaveFunction self.entry.nodes.now names.old code.old i result names.new code.new }
        ensures widened { Widened result names.old names.new }
        ensures room { Grew result self.entry.nodes.now (count code.old) (count code.new) i (end_at self.entry.nodes.now i) }
    {
        let node = node_at(self.nodes, i);
        names.must_be_new(node.place, node.value)?;
        names.must_have_room(node.place)?;
        names.must_be_shallow(node.place)?;
        let result = type_of(node.sub);
        let jump = code.next();
        let what = What::Function {
            result,
            parameters: i + 1,
            entry: jump + 1,
        };
        names.enter(node.value, what, false);
        code.lay(Opcode::Jump, 0);
        self.enclosed(names, code, i, result)?;
        code.lay(Opcode::Return, gives(result));
        code.lay_jump(jump, Opcode::Jump);
        Ok(())
    }
}
