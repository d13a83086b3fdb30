// A record of the node table.
ghost use Rattle.std.specs.Prelude.{◌≡◌};
ghost use Rattle.table.specs.Kinds.{kind_at, class_or};

use crate::kinds::{Class, Kind};

// Stays in numbers: this is the table's format, read from outside, and whether its numbers stand for anything is what check finds out.
// Kind, sub and value say what the node is; end is the number of the first node after it and all below it; place says where it stands in its text.
#[derive(Clone, Copy, PartialEq, Eq, Default, Debug)]
pub struct Node {
    pub kind: u32,
    pub sub: u32,
    pub value: u32,
    pub end: u32,
    pub place: u32,
}

impl Node {
    // The kind that its number stands for, if it stands for one.
    pub fn kind(self) -> Option<Kind>
        ensures { result ≡ kind_at self.kind }
    {
        Kind::try_from(self.kind).ok()
    }

    // What this node counts as among the children of another.
    pub fn class(self) -> Class
        ensures { result ≡ class_or (kind_at self.kind) }
    {
        self.kind().map_or(Class::Other, Kind::class)
    }
}
