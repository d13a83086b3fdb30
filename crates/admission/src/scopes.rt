// Where the walk over declarations stands: the names in open scopes, and the innermost scope.
ghost use Rattle.std.specs.Prelude.{◌≡◌, ◌≤◌, length};

use crate::entering::MOST_NAMES;
use walk::flags::Flags;
use walk::names::Entry;

// The innermost scope: how many names are in open scopes, its own the last of them; the level of its frame, 0 for the program's, one more for each function around; the index of its first name; the slots of its frame so far; and what is set.
#[derive(Clone, Copy, PartialEq, Eq, Debug)]
pub(crate) struct Scope {
    pub height: usize,
    pub level: u8,
    pub floor: usize,
    pub slots: u8,
    pub flags: Flags,
    ghost few: { height ≤ 255 },
    ghost fewer: { slots ≤ height },
}

// The names in open scopes, those below the height of the innermost.
// Stays an array, with the height in the scope: after a function the guard puts height and slots back in one write. A library vector of fixed room has its length for itself, so two writes would do that, and between them there could be more slots than names; and it wants a blank entry for each one that it lets go.
#[derive(Drop)]
pub(crate) struct Names {
    pub(crate) entries: [Entry; MOST_NAMES],
    pub(crate) scope: Scope,
    ghost whole: { length entries ≡ 255 },
}
