// What the walk over expressions and statements goes by.
ghost use Rattle.std.specs.Prelude.{◌≤◌, length};

use crate::names::Entry;
use table::nodes::Node;

// The table, of at most 4,096 nodes; the names in open scopes, at most 255; and the level of the innermost scope's frame.
// Stays without what is set and the code, though they go through the same methods: the first is another after each statement, and the second is lent for writing, which a copied context cannot hold.
#[derive(Clone, Copy, PartialEq, Eq, Debug)]
pub struct Context<'a> {
    pub nodes: &'a [Node],
    pub names: &'a [Entry],
    pub level: u8,
    pub ghost short: { length nodes.now ≤ 4096 },
    pub ghost few: { length names.now ≤ 255 },
}
