// Whether the form of a table is that of a tree: every node by itself, from the lowest on.
ghost use Rattle.std.specs.Prelude.{◌≡◌, ◌<◌, ◌≤◌, length, Decides};
ghost use Rattle.table.specs.Listed.{Children, Listed, node_at, standing};
ghost use Rattle.table.specs.Answers.{Answer};

use crate::kinds::{Form, Kind};
use crate::nodes::Node;
use language::faults::{Cause, Fault};

// A table has at most this many nodes.
pub const MOST: usize = 4_096;

impl Node {
    // Kind 1 stands at node 0 and nowhere else, and node 0 ends with the table.
    fn stands(self, count: usize, i: usize) -> bool
        ensures { result ≡ standing count i self }
    {
        let program = self.kind() == Some(Kind::Program);
        if i == 0 {
            program && self.end as usize == count
        } else {
            !program
        }
    }
}

// The children from one node on to a stop, each with its number and each beginning where the one before it ends; it ends at the stop, or at a child that does not end within it.
#[derive(Drop)]
pub struct ChildNodes<'a> {
    pub nodes: &'a [Node],
    pub at: usize,
    pub stop: usize,
}

impl<'a> Iterator for ChildNodes<'a> {
    ghost use Rattle.std.specs.Prelude.{◌-◌};
    ghost use Rattle.std.specs.Iterator.{at_most};
    ghost use Rattle.table.specs.ChildNodes.{GivesChild};

    type Item = (usize, Node);

    ghost next_gives = { GivesChild };

    ghost remaining = { λ s. at_most (s.stop - s.at) };

    fn next(&mut self) -> Option<(usize, Node)> {
        let at = self.at;
        let node = self.nodes.get(at).copied()?;
        let end = node.end as usize;
        if end <= self.at || end > self.stop {
            return None;
        }
        self.at = end;
        Some((at, node))
    }
}

impl ChildNodes<'_> {
    // Whether the children are those of a form.
    fn fit(mut self, form: Form) -> bool
        ensures { Decides result (Children self.entry.nodes.now self.entry.stop form self.entry.at) }
    {
        let left = self.try_fold(form, |left, (_, child)| left.after(child.class()));
        self.at == self.stop && left.is_some_and(Form::is_complete)
    }
}

// Whether node i is as listed.
fn listed(nodes: &[Node], i: usize) -> bool
    requires { i < length nodes.now }
    ensures { Decides result (Listed nodes.now i) }
{
    let node = nodes[i];
    let Some(kind) = node.kind() else {
        return false;
    };
    let stop = node.end as usize;
    let children = ChildNodes {
        nodes,
        at: i + 1,
        stop,
    };
    node.stands(nodes.len(), i)
        && kind.admits(node.sub, node.value)
        && stop <= nodes.len()
        && children.fit(kind.children())
}

// A table that no tree lays out is refused at its lowest node that is not as listed, or at place 0 where its length is no table's.
pub fn check(nodes: &[Node]) -> Result<(), Fault>
    ensures { Answer nodes.now result }
{
    if nodes.is_empty() || nodes.len() > MOST {
        return Err(Cause::Table.into());
    }
    for (i, node) in nodes.iter().enumerate() {
        if !listed(nodes, i) {
            return Err(Cause::Table.at(node.place));
        }
    }
    Ok(())
}
