// From the words after admit to the nodes of a table.
ghost use Rattle.std.specs.Prelude.{◌≡◌, MatchResult};
ghost use Rattle.script.specs.Nodes.{InFives};

use crate::problem::Problem;
use std::alloc::Global;
use table::nodes::Node;

// Each five words are a node's kind, sub, value, end and place; up to four words at the end are passed over.
#[tactic(auto, using(crate::proofs::Fives::fives_more))]
pub fn nodes(heap: Global, words: &[u32]) -> Result<Vec<Node>, Problem>
    ensures { MatchResult result (λ v. InFives words.now v.items) (λ problem. problem ≡ Problem.NoMemory) }
{
    let mut nodes = Vec::new(heap);
    let (fives, _) = words.as_chunks::<5>();
    for five in fives {
        let [kind, sub, value, end, place] = *five;
        nodes.push(Node {
            kind,
            sub,
            value,
            end,
            place,
        })?;
    }
    Ok(nodes)
}
