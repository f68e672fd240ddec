//! Operators at a size.

ghost use Rattle.std.specs.Prelude.{◌≡◌, ◌≤◌, IfOk};
ghost use Rattle.dt_core.specs.declared.limits.TheConstants.{MAX_WIDTH};
ghost use Rattle.bit_ops.specs.Operators as ops;
ghost use Rattle.bit_ops.specs.Applied as applied;
ghost use Rattle.vl_nodes.specs.Calls as calls;
ghost use Rattle.vl_width.specs.Terms as terms;
ghost use Rattle.vl_operated.specs.Shifts.{is_shift};

use bit_ops::{Binary, Unary};
use dt_core::fault::NoMemory;
use vl_nodes::made::Made;
use vl_nodes::nodes::Nodes;
use vl_vectors::vectors::at_size;
use vl_width::operands::{Operands, operands_of};
use vl_width::size::Size;

/// The low bits of a node at a size, with zeros above where it has fewer.
pub fn resized(nodes: &mut Nodes, of: Made, size: Size) -> Result<Made, NoMemory>
    requires { of.width ≤ MAX_WIDTH }
    ensures width { IfOk result (λ m. m.width ≡ size.width) }
    ensures made { calls.IsOfOne nodes.old nodes.new of size.width (ops.low size.width) result }
{
    if of.width == size.width {
        return Ok(of);
    }
    at_size(nodes, of, false, size)
}

/// A unary operator at a size.
pub fn unary_at(nodes: &mut Nodes, operator: Unary, of: Made, size: Size) -> Result<Made, NoMemory>
    requires { of.width ≡ size.width }
    ensures width { IfOk result (λ m. m.width ≡ size.width) }
    ensures made { calls.IsOfOne nodes.old nodes.new of size.width (applied.unary operator size.width) result }
{
    let made = nodes.unary(operator, of)?;
    resized(nodes, made, size)
}

/// A binary operator on operands of one size.
pub fn alike(
    nodes: &mut Nodes,
    operator: Binary,
    left: Made,
    right: Made,
    size: Size,
) -> Result<Made, NoMemory>
    requires left { left.width ≡ size.width }
    requires right { right.width ≡ size.width }
    ensures width { IfOk result (λ m. m.width ≡ size.width) }
    ensures made { let f = applied.binary operator size.signed size.width in
        calls.IsOfTwo nodes.old nodes.new left right size.width f result }
{
    let made = nodes.binary(operator, size.signed, left, right)?;
    resized(nodes, made, size)
}

/// A shift by a distance; what is no shift does nothing.
pub fn shifted(
    nodes: &mut Nodes,
    operator: Binary,
    left: Made,
    distance: Made,
    size: Size,
) -> Result<Made, NoMemory>
    requires { left.width ≡ size.width }
    ensures width { IfOk result (λ m. m.width ≡ size.width) }
    ensures made { let f = terms.shift_at operator size.signed size.width in
        calls.IsOfTwo nodes.old nodes.new left distance size.width f result }
{
    if is_shift(operator) {
        nodes.binary(operator, size.signed, left, distance)
    } else {
        nodes.keep(left, distance)
    }
}

// Whether the operator is a shift.
fn is_shift(operator: Binary) -> bool
    ensures { result ≡ is_shift operator }
{
    match operands_of(operator) {
        Operands::Shifted => true,
        Operands::Alike => false,
        Operands::Compared => false,
        Operands::Judged => false,
    }
}
