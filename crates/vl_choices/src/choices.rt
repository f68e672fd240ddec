//! Choices one after another.

ghost use Rattle.std.specs.Prelude.{◌≡◌, IfOk};
ghost use Rattle.std.specs.List.{All};
ghost use Rattle.vl_choices.specs.Choices as choices;

use dt_core::fault::NoMemory;
use vl_nodes::made::Made;
use vl_nodes::nodes::Nodes;

/// A condition, which holds where it isn't 0, and the value where it is the first that holds.
#[derive(Clone, Copy, Debug, PartialEq, Eq)]
pub struct Choice {
    pub condition: Made,
    pub value: Made,
}

/// The value of the first choice whose condition holds, else the last one (IEEE 1364-2005, 5.1.13).
pub fn among(nodes: &mut Nodes, list: &[Choice], last: Made) -> Result<Made, NoMemory>
    requires { All (choices.is_as_wide last) list.now }
    ensures width { IfOk result (λ m. m.width ≡ last.width) }
    ensures made { choices.IsAmong nodes.old nodes.new list.now last result }
{
    let mut all = last;
    let mut k = list.len();
    while k > 0 {
        k -= 1;
        let choice = list[k];
        all = nodes.choose(choice.condition, choice.value, all)?;
    }
    Ok(all)
}
