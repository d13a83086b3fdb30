// Names that enter the innermost scope.
ghost use Rattle.std.specs.Prelude.{◌≡◌, ◌+◌, ◌<◌, ◌≤◌, List, set, take, OnOk};
ghost use Rattle.table.specs.declared.nodes.Node.{Node as Record};
ghost use Rattle.walk.specs.Sets.{marked};
ghost use Rattle.walk.specs.Programs.{Scope as Walked, new, room_for, shallow, declaring};
ghost use Rattle.walk.specs.Known.{type_or};
ghost use Rattle.admission.specs.Standing.{scope_of, GaveScope, Widened};

use crate::scopes::Names;
use language::faults::{Fault, WalkRefusal};
use table::nodes::Node;
use walk::lookup::newest;
use walk::names::{Entry, What};
use walk::typing::type_of;

// There are at most this many names in open scopes, hidden ones and the host's three among them.
pub const MOST_NAMES: usize = 255;

// Functions are nested at most this deep.
pub const DEEPEST: u8 = 32;

impl Names {
    // The names in open scopes, the newest last.
    pub(crate) fn known(&self) -> &[Entry]
        ensures { result.now ≡ take self.now.scope.height self.now.entries }
    {
        &self.entries[..self.scope.height]
    }

    // A name must be new in the innermost scope.
    pub(crate) fn must_be_new(&self, place: u32, name: u32) -> Result<(), Fault>
        ensures { (table : List Record) → result ≡ new place (scope_of table self.now) name }
    {
        match newest(self.known(), name) {
            Some(k) if self.scope.floor <= k => Err(WalkRefusal::DeclaredTwice.at(place)),
            _ => Ok(()),
        }
    }

    // There must be room for one more name.
    pub(crate) fn must_have_room(&self, place: u32) -> Result<(), Fault>
        ensures answer { (table : List Record) → result ≡ room_for place (scope_of table self.now) }
        ensures room { OnOk result (self.now.scope.height < 255) }
    {
        if MOST_NAMES <= self.scope.height {
            return Err(WalkRefusal::TooManyNames.at(place));
        }
        Ok(())
    }

    // Functions must not be nested too deep.
    pub(crate) fn must_be_shallow(&self, place: u32) -> Result<(), Fault>
        ensures answer { (table : List Record) → result ≡ shallow place (scope_of table self.now) }
        ensures room { OnOk result (self.now.scope.level < 32) }
    {
        if DEEPEST <= self.scope.level {
            return Err(WalkRefusal::TooDeep.at(place));
        }
        Ok(())
    }

    // A name enters the innermost scope, set or not.
    pub(crate) fn enter(&mut self, name: u32, what: What, flag: bool)
        requires { self.old.scope.height < 255 }
        ensures entries { self.new.entries ≡ set self.old.entries self.old.scope.height (record { name = name; level = self.old.scope.level; what = what }) }
        ensures height { self.new.scope.height ≡ self.old.scope.height + 1 }
        ensures level { self.new.scope.level ≡ self.old.scope.level }
        ensures floor { self.new.scope.floor ≡ self.old.scope.floor }
        ensures slots { self.new.scope.slots ≡ self.old.scope.slots }
        ensures flags { self.new.scope.flags.set ≡ marked self.old.scope.flags.set self.old.scope.height flag }
    {
        let k = self.scope.height;
        self.entries[k] = Entry {
            name,
            level: self.scope.level,
            what,
        };
        self.scope.flags = self.scope.flags.mark(k, flag);
        self.scope.height = k + 1;
    }

    // A variable or a parameter takes the next slot of its frame; a parameter is set.
    pub(crate) fn declare(&mut self, node: Node, flag: bool) -> Result<(), Fault>
        ensures answer { (table : List Record) → GaveScope table result self.new (declaring node.place (type_or node.sub) node.value flag (scope_of table self.old)) }
        ensures widened { Widened result self.old self.new }
    {
        self.must_be_new(node.place, node.value)?;
        self.must_have_room(node.place)?;
        let what = What::Variable {
            typed: type_of(node.sub),
            slot: self.scope.slots,
        };
        self.enter(node.value, what, flag);
        self.scope.slots += 1;
        Ok(())
    }
}
