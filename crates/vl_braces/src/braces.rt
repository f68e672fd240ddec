//! Nodes side by side.

ghost use Rattle.std.specs.Prelude.{◌≡◌, ◌≤◌, ◌*◌, ◌∷◌, IfOk};
ghost use Rattle.dt_core.specs.declared.limits.TheConstants.{MAX_WIDTH};
ghost use Rattle.vl_nodes.specs.Calls as calls;
ghost use Rattle.vl_value.specs.Meaning.{repeated};
ghost use Rattle.vl_braces.specs.Braces as braces;

use dt_core::fault::NoMemory;
use vl_nodes::made::Made;
use vl_nodes::nodes::Nodes;

/// So many copies of a node, one at least, side by side.
pub fn copies(nodes: &mut Nodes, of: Made, count: u32) -> Result<Made, NoMemory>
    requires some { 1 ≤ count }
    requires fit { count * of.width ≤ MAX_WIDTH }
    ensures width { IfOk result (λ m. m.width ≡ count * of.width) }
    ensures made { calls.IsOfOne nodes.old nodes.new of (count * of.width) (repeated count of.width) result }
{
    let mut all = of;
    let mut done = 1;
    while done < count {
        all = nodes.concat(all, of)?;
        done += 1;
    }
    Ok(all)
}

/// A node and others side by side, the first leftmost.
pub fn together(nodes: &mut Nodes, first: Made, rest: &[Made]) -> Result<Made, NoMemory>
    requires { braces.widths (first ∷ rest.now) ≤ MAX_WIDTH }
    ensures width { IfOk result (λ m. m.width ≡ braces.widths (first ∷ rest.now)) }
    ensures made { braces.IsBeside nodes.old nodes.new (first ∷ rest.now) result }
{
    let mut all = first;
    for part in rest {
        all = nodes.concat(all, *part)?;
    }
    Ok(all)
}
