//! Nodes that have the value of another one in each cycle, and so its slot.

ghost use Rattle.std.specs.Prelude.{◌≡◌, false, IsTrue, IfSome};
ghost use Rattle.bit_ops.specs.declared.operator.Unary.TheVariants as one;
ghost use Rattle.bit_ops.specs.declared.operator.Binary.TheVariants as two;
ghost use Rattle.netlist.specs.Values.{width_at};
ghost use Rattle.netlist.specs.declared.node.Operation.TheVariants as o;
ghost use Rattle.net_compile.specs.Lowered as lowered;

use bit_ops::{Binary, Unary};
use netlist::flat::Flat;
use netlist::laws::values_law;
use netlist::node::{Node, Operation};

// The width of a node, if it is there.
fn width_of(flat: &Flat, node: u32) -> Option<u32>
    ensures { IfSome result (λ w. w ≡ width_at flat.now.nodes node) }
{
    match flat.nodes().get(node as usize) {
        Some(read) => Some(read.width),
        None => None,
    }
}

// Whether a node is the constant 1.
fn is_constant_one(node: Node) -> bool
    ensures { IsTrue result → node.operation ≡ o.Constant 1 }
{
    match node.operation {
        Operation::Constant { value } => value == 1,
        _ => false,
    }
}

// Whether a node is known to be 1 in each cycle.
fn is_one(flat: &Flat, node: u32) -> bool
    ensures { IsTrue result → lowered.IsAlwaysOne flat.now node }
{
    values_law();
    let nodes = flat.nodes();
    if node as usize >= nodes.len() {
        return false;
    }
    is_constant_one(nodes[node as usize])
}

// Whether a node is known to be 1 in each cycle, and the other one has one bit.
fn stands_alone(flat: &Flat, one: u32, other: u32) -> bool
    ensures one { IsTrue result → lowered.IsAlwaysOne flat.now one }
    ensures width { IsTrue result → width_at flat.now.nodes other ≡ 1 }
{
    is_one(flat, one) && width_of(flat, other) == Some(1)
}

// Whether it is the operator `&&`.
fn is_logic_and(operator: Binary) -> bool
    ensures { IsTrue result → operator ≡ two.LogicAnd }
{
    match operator {
        Binary::LogicAnd => true,
        _ => false,
    }
}

// Which of two nodes has the value of both joined by an operator, where that is `&&`.
fn same_as_both(flat: &Flat, operator: Binary, left: u32, right: u32) -> Option<u32>
    ensures { IfSome result (λ k. (operator ≡ two.LogicAnd) × lowered.IsBoth flat.now left right k) }
{
    if !is_logic_and(operator) {
        return None;
    }
    if stands_alone(flat, left, right) {
        return Some(right);
    }
    if stands_alone(flat, right, left) {
        return Some(left);
    }
    None
}

// The operand, where the operator is `+`.
fn same_as_operand(operator: Unary, of: u32) -> Option<u32>
    ensures { IfSome result (λ k. (operator ≡ one.Plus) × (k ≡ of)) }
{
    match operator {
        Unary::Plus => Some(of),
        _ => None,
    }
}

// The node that is extended, where that is by zeros, and its slot has the kind of the larger width too.
fn same_as_extended(flat: &Flat, width: u32, signed: bool, of: u32) -> Option<u32>
    ensures { IfSome result (λ k. (signed ≡ false) × (k ≡ of) × lowered.HaveOneKind flat.now of width) }
{
    if signed {
        return None;
    }
    let own = width_of(flat, of)?;
    if (own <= 64) == (width <= 64) {
        Some(of)
    } else {
        None
    }
}

/// The node that has the value of this one in each cycle, if that is seen at once: what is kept or extended by zeros, the
/// operand of `+`, or a condition that is joined by `&&` to a node that is 1.
pub(crate) fn same_as(flat: &Flat, node: Node) -> Option<u32>
    requires { lowered.IsNodeOf flat.now node }
    ensures { IfSome result (λ k. lowered.IsSameAs flat.now node k) }
{
    match node.operation {
        Operation::Keep { of, .. } => Some(of),
        Operation::Unary { operator, of } => same_as_operand(operator, of),
        Operation::Extend { signed, of } => same_as_extended(flat, node.width, signed, of),
        Operation::Binary {
            operator,
            left,
            right,
            ..
        } => same_as_both(flat, operator, left, right),
        _ => None,
    }
}
