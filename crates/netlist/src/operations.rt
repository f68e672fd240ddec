//! Whether a node's operation fits the nodes below it.

ghost use Rattle.std.specs.Prelude.{◌≡◌, ◌↔◌, ◌≤◌, ◌<◌, ◌^◌, slice_get, IsTrue};
ghost use Rattle.std.specs.Option.{option_map};
ghost use Rattle.bit_ops.specs.Applied as applied;
ghost use Rattle.netlist.specs.Fits as fits;

use crate::design::{Memory, Range, Signal};
use crate::node::{Node, Operation};
use bit_ops::{Binary, Unary};
use dt_core::bits::Bits;
use dt_core::limits::MAX_WIDTH;

// The width of a node of this number among the lower ones; none where it isn't there.
fn width_of(lower: &[Node], node: u32) -> Option<u32>
    ensures { result ≡ option_map (λ x. x.width) (slice_get lower.now node) }
{
    match lower.get(node as usize) {
        Some(node) => Some(node.width),
        None => None,
    }
}

/// Whether a node of this number is there.
pub(crate) fn is_node(nodes: &[Node], node: u32) -> bool
    ensures { IsTrue result ↔ fits.IsNode nodes.now node }
{
    width_of(nodes, node).is_some()
}

/// Whether a node of this number is there and has this width.
pub(crate) fn has_width(nodes: &[Node], node: u32, width: u32) -> bool
    ensures { IsTrue result ↔ fits.HasNode nodes.now node (λ w. w ≡ width) }
{
    match width_of(nodes, node) {
        Some(of) => of == width,
        None => false,
    }
}

/// Whether the range lies within its signal.
pub(crate) fn lies_within(signals: &[Signal], range: &Range) -> bool
    ensures { IsTrue result ↔ fits.LiesWithin signals.now range.now }
{
    match signals.get(range.signal as usize) {
        Some(signal) => { u64::from(range.low) + u64::from(range.width) <= u64::from(signal.width) }
        None => false,
    }
}

// Whether the memory is there and has words of this width.
fn has_words(memories: &[Memory], memory: u32, width: u32) -> bool
    ensures { IsTrue result ↔ fits.HasWords memories.now memory width }
{
    match memories.get(memory as usize) {
        Some(memory) => memory.width == width,
        None => false,
    }
}

// Whether the operator gives this width of the node.
fn unary_fits(lower: &[Node], width: u32, operator: Unary, of: u32) -> bool
    ensures { IsTrue result ↔ fits.HasNode lower.now of (λ v. width ≡ applied.unary_width operator v) }
{
    match width_of(lower, of) {
        Some(of) => width == unary_width(operator, of),
        None => false,
    }
}

// The width that the operator gives.
fn unary_width(operator: Unary, width: u32) -> u32
    ensures { result ≡ applied.unary_width operator width }
{
    match operator {
        Unary::Plus | Unary::Minus | Unary::Not => width,
        Unary::LogicNot
        | Unary::And
        | Unary::Nand
        | Unary::Or
        | Unary::Nor
        | Unary::Xor
        | Unary::Xnor => 1,
    }
}

// Whether the operator takes nodes of these widths and gives this one.
fn binary_fits(lower: &[Node], width: u32, operator: Binary, left: u32, right: u32) -> bool
    ensures { IsTrue result ↔ fits.BinaryFits lower.now width operator left right }
{
    match (width_of(lower, left), width_of(lower, right)) {
        (Some(left), Some(right)) => {
            width == binary_width(operator, left) && (!takes_one_width(operator) || left == right)
        }
        (None, _) | (_, None) => false,
    }
}

// The width that the operator gives, of the width of its left operand.
fn binary_width(operator: Binary, width: u32) -> u32
    ensures { result ≡ applied.binary_width operator width }
{
    match operator {
        Binary::Lt
        | Binary::Le
        | Binary::Gt
        | Binary::Ge
        | Binary::Eq
        | Binary::Ne
        | Binary::LogicAnd
        | Binary::LogicOr => 1,
        Binary::Mul
        | Binary::Div
        | Binary::Rem
        | Binary::Add
        | Binary::Sub
        | Binary::Shl
        | Binary::Shr
        | Binary::Sar
        | Binary::And
        | Binary::Xor
        | Binary::Xnor
        | Binary::Or => width,
    }
}

// Whether the operator's operands have one width.
fn takes_one_width(operator: Binary) -> bool
    ensures { result ≡ applied.takes_one_width operator }
{
    match operator {
        Binary::Shl | Binary::Shr | Binary::Sar | Binary::LogicAnd | Binary::LogicOr => false,
        Binary::Mul
        | Binary::Div
        | Binary::Rem
        | Binary::Add
        | Binary::Sub
        | Binary::Lt
        | Binary::Le
        | Binary::Gt
        | Binary::Ge
        | Binary::Eq
        | Binary::Ne
        | Binary::And
        | Binary::Xor
        | Binary::Xnor
        | Binary::Or => true,
    }
}

// Whether the nodes stand side by side in this width.
fn concat_fits(lower: &[Node], width: u32, left: u32, right: u32) -> bool
    ensures { IsTrue result ↔ fits.ConcatFits lower.now width left right }
{
    match (width_of(lower, left), width_of(lower, right)) {
        (Some(left), Some(right)) => u64::from(left) + u64::from(right) == u64::from(width),
        (None, _) | (_, None) => false,
    }
}

// Whether the node is there and isn't wider than this.
fn is_at_most(lower: &[Node], node: u32, width: u32) -> bool
    ensures { IsTrue result ↔ fits.HasNode lower.now node (λ v. v ≤ width) }
{
    match width_of(lower, node) {
        Some(of) => of <= width,
        None => false,
    }
}

// Whether the node is there and isn't narrower than this.
fn is_at_least(lower: &[Node], node: u32, width: u32) -> bool
    ensures { IsTrue result ↔ fits.HasNode lower.now node (λ v. width ≤ v) }
{
    match width_of(lower, node) {
        Some(of) => width <= of,
        None => false,
    }
}

/// Whether a number is below 2^width.
pub(crate) fn holds(width: u32, value: u128) -> bool
    requires { fits.IsWidth width }
    ensures { IsTrue result ↔ (value < 2 ^ width) }
{
    Bits::new(width, value).is_some()
}

/// Whether this is a width that a vector can have.
pub(crate) fn is_width(width: u32) -> bool
    ensures { IsTrue result ↔ fits.IsWidth width }
{
    1 <= width && width <= MAX_WIDTH
}

// Whether an operation fits the nodes below it at this width.
fn operation_fits(
    signals: &[Signal],
    memories: &[Memory],
    lower: &[Node],
    width: u32,
    operation: &Operation,
) -> bool
    requires { fits.IsWidth width }
    ensures { IsTrue result ↔ fits.OperationFits signals.now memories.now lower.now width operation.now }
{
    match *operation {
        Operation::Constant { value } => holds(width, value),
        Operation::Bits { range } => range.width == width && lies_within(signals, &range),
        Operation::Word { memory, index } => {
            has_words(memories, memory, width) && is_node(lower, index.node)
        }
        Operation::Unary { operator, of } => unary_fits(lower, width, operator, of),
        Operation::Binary {
            operator,
            signed: _,
            left,
            right,
        } => binary_fits(lower, width, operator, left, right),
        Operation::Extend { signed: _, of } => is_at_most(lower, of, width),
        Operation::Cut { of } => is_at_least(lower, of, width),
        Operation::Select { of, place } => is_node(lower, of) && is_node(lower, place.node),
        Operation::Insert { of, place, part } => {
            has_width(lower, of, width) && is_node(lower, place.node) && is_node(lower, part)
        }
        Operation::Concat { left, right } => concat_fits(lower, width, left, right),
        Operation::Choose { condition, yes, no } => {
            is_node(lower, condition) && has_width(lower, yes, width) && has_width(lower, no, width)
        }
        Operation::Keep { of, also } => has_width(lower, of, width) && is_node(lower, also),
    }
}

/// Whether each node reads lower nodes alone, at widths that its operation takes and gives.
pub(crate) fn nodes_fit(signals: &[Signal], memories: &[Memory], nodes: &[Node]) -> bool
    ensures { IsTrue result ↔ fits.AllAt (fits.NodeFits signals.now memories.now nodes.now) nodes.now }
{
    for (number, node) in nodes.iter().enumerate() {
        if !node_fits(signals, memories, &nodes[..number], node) {
            return false;
        }
    }
    true
}

// Whether a node fits those below it.
fn node_fits(signals: &[Signal], memories: &[Memory], lower: &[Node], node: &Node) -> bool
    ensures { IsTrue result ↔ fits.FitsAbove signals.now memories.now lower.now node.now }
{
    is_width(node.width) && operation_fits(signals, memories, lower, node.width, &node.operation)
}
