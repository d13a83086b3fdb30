// Reading the table node by node.
ghost use Rattle.std.specs.Prelude.{◌≡◌};
ghost use Rattle.table.specs.Listed.{node_at, end_at};

use table::nodes::Node;

// A node; past the end of the table, one of no kind.
pub fn node_at(nodes: &[Node], i: usize) -> Node
    ensures { result ≡ node_at nodes.now i }
{
    nodes.get(i).copied().unwrap_or_default()
}

// Where a node ends.
pub fn end_of(nodes: &[Node], i: usize) -> usize
    ensures { result ≡ end_at nodes.now i }
{
    node_at(nodes, i).end as usize
}
