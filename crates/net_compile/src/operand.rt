//! Nodes as calculations on slots.

ghost use Rattle.std.specs.Prelude.{◌≡◌, ◌≤◌, true, slice_index_or, None, IfSome, IsTrue};
ghost use Rattle.net_compile.specs.Lowered as lowered;

use netlist::design::{Index, Memory};
use netlist::flat::Flat;
use netlist::laws::values_law;
use netlist::node::{Node, Operation};
use step_program::step::{Calculation, Number, Operand, Slot};

/// The slot of a node, if it has one.
pub(crate) fn slot_of(slots: &[Option<Slot>], node: u32) -> Option<Slot>
    ensures { result ≡ slice_index_or slots.now node None }
{
    match slots.get(node as usize) {
        Some(slot) => *slot,
        None => None,
    }
}

/// A node as an operand, if it has a slot.
pub(crate) fn operand(flat: &Flat, slots: &[Option<Slot>], node: u32) -> Option<Operand>
    ensures { IfSome result (λ o. lowered.IsOperand flat.now slots.now node o) }
{
    let slot = slot_of(slots, node)?;
    match flat.nodes().get(node as usize) {
        Some(read) => Some(Operand {
            slot,
            width: read.width,
        }),
        None => None,
    }
}

// A node as a whole number, if it has a slot.
fn number(flat: &Flat, slots: &[Option<Slot>], index: Index) -> Option<Number>
    ensures { IfSome result (λ n. lowered.IsNumber flat.now slots.now index n) }
{
    let of = operand(flat, slots, index.node)?;
    Some(Number {
        of,
        signed: index.signed,
    })
}

// The least index of a memory; 0 where there is none.
fn least_index(memories: &[Memory], memory: u32) -> u32
    ensures { result ≡ lowered.least_of memories.now memory }
{
    match memories.get(memory as usize) {
        Some(memory) => memory.first.min(memory.last),
        None => 0,
    }
}

// Whether no number up to 128 at a width is below 0.
fn is_plain(width: u32, signed: bool) -> bool
    ensures { IsTrue result → signed ≡ true → 9 ≤ width }
{
    !signed || 9 <= width
}

// The number that a node is, if it is one of at most 128 and isn't below 0.
fn numeral(node: Node, signed: bool) -> Option<u32>
    ensures { IfSome result (λ k. lowered.IsNumeral node signed k) }
{
    match node.operation {
        Operation::Constant { value } => {
            if value > 128 {
                return None;
            }
            if !is_plain(node.width, signed) {
                return None;
            }
            Some(value as u32)
        }
        _ => None,
    }
}

/// The place for which an index stands in each cycle, if that is a constant of at most 128.
pub(crate) fn constant_place(flat: &Flat, index: Index) -> Option<u32>
    ensures { IfSome result (λ k. lowered.IsPlaceOf flat.now index k) }
{
    values_law();
    let nodes = flat.nodes();
    if index.node as usize >= nodes.len() {
        return None;
    }
    numeral(nodes[index.node as usize], index.signed)
}

/// The calculation of a node that is no bits of a signal and no kept node; none where a node that it reads has no slot.
pub(crate) fn calculation(flat: &Flat, slots: &[Option<Slot>], node: Node) -> Option<Calculation>
    requires { lowered.IsNodeOf flat.now node }
    ensures { IfSome result (λ r. lowered.IsCalculationOf flat.now slots.now node r) }
{
    match node.operation {
        Operation::Constant { value } => Some(Calculation::Constant { value }),
        Operation::Bits { .. } | Operation::Keep { .. } => None,
        Operation::Word { memory, index } => Some(Calculation::Word {
            memory,
            least: least_index(flat.memories(), memory),
            index: number(flat, slots, index)?,
        }),
        Operation::Unary { operator, of } => Some(Calculation::Unary {
            operator,
            of: operand(flat, slots, of)?,
        }),
        Operation::Binary {
            operator,
            signed,
            left,
            right,
        } => Some(Calculation::Binary {
            operator,
            signed,
            left: operand(flat, slots, left)?,
            right: operand(flat, slots, right)?,
        }),
        Operation::Extend { signed, of } => Some(Calculation::Extend {
            signed,
            of: operand(flat, slots, of)?,
        }),
        Operation::Cut { of } => Some(Calculation::Cut {
            of: operand(flat, slots, of)?,
        }),
        Operation::Select { of, place } => Some(Calculation::Select {
            of: operand(flat, slots, of)?,
            place: number(flat, slots, place)?,
        }),
        Operation::Insert { of, place, part } => Some(Calculation::Insert {
            of: operand(flat, slots, of)?,
            place: number(flat, slots, place)?,
            part: operand(flat, slots, part)?,
        }),
        Operation::Concat { left, right } => Some(Calculation::Concat {
            left: operand(flat, slots, left)?,
            right: operand(flat, slots, right)?,
        }),
        Operation::Choose { condition, yes, no } => Some(Calculation::Choose {
            condition: operand(flat, slots, condition)?,
            yes: operand(flat, slots, yes)?,
            no: operand(flat, slots, no)?,
        }),
    }
}
