//! `$clog2` as nodes.

ghost use Rattle.std.specs.Prelude.{◌≡◌, ◌≤◌, ◌<◌, IfOk, IfErr};
ghost use Rattle.dt_core.specs.declared.limits.TheConstants.{MAX_WIDTH};
ghost use Rattle.netlist.specs.Fits.{IsWidth};
ghost use Rattle.vl_logarithm.specs.Logarithm as logarithms;

use bit_ops::Binary;
use dt_core::fault::NoMemory;
use vl_nodes::made::Made;
use vl_nodes::nodes::Nodes;

/// The width of what `$clog2` gives, in bits (IEEE 1364-2005, 17.11.1).
pub const WIDTH: u32 = 32;

/// The least k with 2^k at least the node's value, and 0 for 0 (IEEE 1364-2005, 17.11.1).
pub fn logarithm(nodes: &mut Nodes, of: Made) -> Result<Made, NoMemory>
    requires { IsWidth of.width }
    ensures width { IfOk result (λ m. m.width ≡ WIDTH) }
    ensures made { logarithms.IsLogarithm nodes.old nodes.new of result }
{
    let mut least = nodes.number(WIDTH, u128::from(of.width))?;
    let mut k = of.width;
    while k > 0 {
        k -= 1;
        least = step(nodes, of, k, least)?;
    }
    Ok(least)
}

// k, where 2^k is at least the node's value, else the one above.
fn step(nodes: &mut Nodes, of: Made, k: u32, above: Made) -> Result<Made, NoMemory>
    requires wide { IsWidth of.width }
    requires within { k < of.width }
    requires above { above.width ≡ WIDTH }
    ensures width { IfOk result (λ m. m.width ≡ WIDTH) }
    ensures made { logarithms.IsStep nodes.old nodes.new of k above result }
{
    let power = nodes.number(of.width, 1 << k)?;
    let reaches = nodes.binary(Binary::Le, false, of, power)?;
    let number = nodes.number(WIDTH, u128::from(k))?;
    nodes.choose(reaches, number, above)
}
