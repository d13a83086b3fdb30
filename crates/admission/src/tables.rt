// The table that is walked over.
ghost use Rattle.std.specs.Prelude.{◌≤◌, length};

use table::nodes::Node;

// A table of at most 4,096 nodes.
#[derive(Clone, Copy, PartialEq, Eq, Debug)]
pub(crate) struct Table<'a> {
    pub nodes: &'a [Node],
    ghost short: { length nodes.now ≤ 4096 },
}
