// The arguments of a call, one by one against its parameters.
ghost use Rattle.std.specs.Prelude.{◌≡◌};
ghost use Rattle.walk.specs.Types.{one_more, judged};
ghost use Rattle.walk.specs.Known.{Coming, tally_of};

use crate::names::{Parameters, Tally};
use crate::typing::type_of;
use language::faults::{Fault, WalkRefusal};
use language::values::ValueType;
use table::kinds::Class;
use table::nodes::Node;

// The next parameter's type and those after it, if there is one.
fn next_parameter(nodes: &[Node], left: Parameters) -> Option<(ValueType, Parameters)>
    ensures { Coming nodes.now left result }
{
    match left {
        Parameters::Listed(k) => match nodes.get(k) {
            Some(node) if node.class() == Class::Parameter => {
                Some((type_of(node.sub), Parameters::Listed(k + 1)))
            }
            _ => None,
        },
        Parameters::NoInts => None,
        Parameters::OneInt => Some((ValueType::Int, Parameters::NoInts)),
        Parameters::TwoInts => Some((ValueType::Int, Parameters::OneInt)),
    }
}

impl Tally {
    // One more argument, with its type.
    pub(crate) fn take(self, nodes: &[Node], argument: ValueType) -> Tally
        ensures { tally_of nodes.now result ≡ one_more (tally_of nodes.now self) argument }
    {
        match next_parameter(nodes, self.left) {
            Some((wanted, left)) => Tally {
                left,
                surplus: self.surplus,
                matched: self.matched && wanted == argument,
            },
            None => Tally {
                left: Parameters::NoInts,
                surplus: true,
                matched: self.matched,
            },
        }
    }

    // After the last argument: first their number, then their types.
    pub(crate) fn judge(
        self,
        nodes: &[Node],
        place: u32,
        res: ValueType,
    ) -> Result<ValueType, Fault>
        ensures { result ≡ judged place (tally_of nodes.now self) res }
    {
        if self.surplus || next_parameter(nodes, self.left).is_some() {
            Err(WalkRefusal::WrongCount.at(place))
        } else if self.matched {
            Ok(res)
        } else {
            Err(WalkRefusal::WrongType.at(place))
        }
    }
}
