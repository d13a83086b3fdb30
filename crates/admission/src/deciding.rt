// The verdict on a table: whether its form is a tree's, then the walk over that tree.
ghost use Rattle.std.specs.Prelude.{◌≡◌, length, take};
ghost use Rattle.table.specs.Answers.{Sized};
ghost use Rattle.walk.specs.Lay.{count};
ghost use Rattle.walk.specs.Sets.{none_set};
ghost use Rattle.admission.specs.Judged.{Judged, verdict_of, BareWhereRefused};
ghost use Rattle.admission.specs.Walks.{host_entries, HasProgram, GaveProgram};

use crate::declaring::gives;
use crate::entering::MOST_NAMES;
use crate::scopes::{Names, Scope};
use crate::tables::Table;
use language::faults::Fault;
use language::opcodes::Opcode;
use language::values::ValueType;
use table::checking::check;
use table::nodes::Node;
use walk::codes::Code;
use walk::flags::Flags;
use walk::names::{Entry, What};

// An entry of one of the host's three.
fn host_entry(name: u32, what: What) -> Entry
    ensures { result ≡ record { name = name; level = 0; what = what } }
{
    Entry {
        name,
        level: 0,
        what,
    }
}

impl Names {
    // The names at first: the host's three, each at level 0, outside the program's scope.
    fn hosts() -> Names
        ensures entries { take 3 result.entries ≡ host_entries }
        ensures height { result.scope.height ≡ 3 }
        ensures level { result.scope.level ≡ 0 }
        ensures floor { result.scope.floor ≡ 3 }
        ensures slots { result.scope.slots ≡ 0 }
        ensures flags { result.scope.flags.set ≡ none_set }
    {
        let mut entries = [host_entry(0, What::Amount); MOST_NAMES];
        entries[1] = host_entry(1, What::Flag);
        entries[2] = host_entry(2, What::Post);
        let scope = Scope {
            height: 3,
            level: 0,
            floor: 3,
            slots: 0,
            flags: Flags::none(),
        };
        Names { entries, scope }
    }
}

// A program: the host's three names, its inside, and an end.
fn program(nodes: &[Node], code: &mut Code) -> Result<ValueType, Fault>
    requires sized { Sized nodes.now }
    requires bare { count code.old ≡ 0 }
    requires tree { HasProgram nodes.now }
    ensures { GaveProgram nodes.now result code.new }
{
    let mut names = Names::hosts();
    let table = Table { nodes };
    let result = table.inside(&mut names, code, 1, nodes.len())?;
    code.lay(Opcode::End, gives(result));
    Ok(result)
}

// Decides a table of any content and length: its type, with the code laid; or the fault, with nothing laid.
pub fn decide(nodes: &[Node], code: &mut Code) -> Result<ValueType, Fault>
    ensures verdict { Judged nodes.now (verdict_of result code.new) }
    ensures bare { BareWhereRefused result code.new }
{
    code.clear();
    check(nodes)?;
    let typed = program(nodes, code);
    if typed.is_err() {
        code.clear();
    }
    typed
}
