//! The values of a design's nodes over the values of a cycle, read plainly.

ghost use Rattle.std.specs.Prelude.{◌≡◌, true, false};
ghost use Rattle.bit_ops.specs.Applied as applied;

use bit_ops::{Binary, Unary, binary, concat, cut_to, extend, unary};
use dt_core::bits::Bits;
use netlist::design::{Index, Range};
use netlist::flat::Flat;
use netlist::node::{Node, Operation};
use std::alloc::Global;
use std::test::Fail;

/// The values of a cycle: of each signal a number, of each memory its words from the least index on.
#[derive(Drop)]
pub struct Values {
    pub signals: Vec<u128>,
    pub memories: Vec<Vec<u128>>,
}

/// The bit at a place; 0 outside.
pub fn bit(value: u128, place: i64) -> bool {
    match u32::try_from(place) {
        Ok(place) if place < 128 => (value >> place) & 1 == 1,
        _ => false,
    }
}

// The number with the bit at a place set or not; nothing changes outside of the width.
fn with_bit(value: u128, width: u32, place: i64, set: bool) -> u128 {
    match u32::try_from(place) {
        Ok(place) if place < width && place < 128 => {
            let one = 1u128 << place;
            if set { value | one } else { value & !one }
        }
        _ => value,
    }
}

/// So many bits from a place upward.
pub fn taken(value: u128, place: i64, width: u32) -> u128 {
    let mut taken = 0;
    for k in 0..width {
        let from = place.saturating_add(i64::from(k));
        taken = with_bit(taken, width, i64::from(k), bit(value, from));
    }
    taken
}

/// The value of this width with so many bits of a part from a place upward.
pub fn inserted(value: u128, width: u32, place: i64, part: u128, count: u32) -> u128 {
    let mut now = value;
    for k in 0..count {
        let to = place.saturating_add(i64::from(k));
        now = with_bit(now, width, to, bit(part, i64::from(k)));
    }
    now
}

// Further outside than any place.
const FAR: u128 = 1 << 40;

/// The whole number of bits, in two's complement where it is signed; beyond 2^40 and -2^40 these.
pub fn whole(bits: Bits, signed: bool) -> i64 {
    let value = bits.value();
    if signed && bit(value, i64::from(bits.width()) - 1) {
        0i64.saturating_sub(near(unary(Unary::Minus, bits).value()))
    } else {
        near(value)
    }
}

// The number, at most 2^40.
fn near(value: u128) -> i64 {
    value.min(FAR) as i64
}

// The value of a node.
fn at(nodes: &[Bits], number: u32) -> Option<Bits> {
    nodes.get(number as usize).copied()
}

// The value of an index.
fn index_value(nodes: &[Bits], index: Index) -> Option<i64> {
    Some(whole(at(nodes, index.node)?, index.signed))
}

/// The place of a memory's word at an index.
pub fn word_place(flat: &Flat, memory: u32, nodes: &[Bits], index: Index) -> Option<i64> {
    let memory = flat.memories().get(memory as usize)?;
    let least = memory.first.min(memory.last);
    Some(index_value(nodes, index)?.saturating_sub(i64::from(least)))
}

// The word at a place; 0 outside.
fn word_at(words: &[u128], place: i64) -> u128 {
    match usize::try_from(place) {
        Ok(place) => words.get(place).copied().unwrap_or(0),
        Err(_) => 0,
    }
}

// Whether the operator's operands may have two widths.
fn takes_two_widths(operator: Binary) -> bool
    ensures { applied.takes_one_width operator ≡ true → result ≡ false }
{
    matches!(
        operator,
        Binary::Shl | Binary::Shr | Binary::Sar | Binary::LogicAnd | Binary::LogicOr
    )
}

// An operator on two nodes; none where it doesn't take their widths.
fn on_two(operator: Binary, a: Bits, b: Bits, signed: bool) -> Option<Bits> {
    if a.width() == b.width() || takes_two_widths(operator) {
        Some(binary(operator, a, b, signed))
    } else {
        None
    }
}

// A node at another width; none where it is beyond the node's own, or that beyond it.
fn at_width(of: Bits, width: u32, wider: Option<bool>) -> Option<Bits> {
    match wider {
        Some(signed) if of.width() <= width && width <= 128 => Some(extend(of, width, signed)),
        None if 1 <= width && width <= of.width() => Some(cut_to(of, width)),
        _ => None,
    }
}

// Two nodes side by side; none where they are wider than a vector.
fn side_by_side(left: Bits, right: Bits) -> Option<Bits> {
    if left.width() + right.width() <= 128 {
        Some(concat(left, right))
    } else {
        None
    }
}

impl Values {
    // Bits of a signal.
    fn bits(&self, range: Range) -> Option<Bits> {
        let signal = self.signals.get(range.signal as usize)?;
        Bits::new(
            range.width,
            taken(*signal, i64::from(range.low), range.width),
        )
    }

    // The word of a memory at an index.
    fn word(
        &self,
        flat: &Flat,
        width: u32,
        memory: u32,
        nodes: &[Bits],
        index: Index,
    ) -> Option<Bits> {
        let words = self.memories.get(memory as usize)?;
        Bits::new(
            width,
            word_at(words, word_place(flat, memory, nodes, index)?),
        )
    }

    // The value of a node over those of the lower ones; none where one isn't there or doesn't fit.
    fn node(&self, flat: &Flat, nodes: &[Bits], node: &Node) -> Option<Bits> {
        match node.operation {
            Operation::Constant { value } => Bits::new(node.width, value),
            Operation::Bits { range } => self.bits(range),
            Operation::Word { memory, index } => self.word(flat, node.width, memory, nodes, index),
            Operation::Unary { operator, of } => Some(unary(operator, at(nodes, of)?)),
            Operation::Binary {
                operator,
                signed,
                left,
                right,
            } => { on_two(operator, at(nodes, left)?, at(nodes, right)?, signed) }
            Operation::Extend { signed, of } => at_width(at(nodes, of)?, node.width, Some(signed)),
            Operation::Cut { of } => at_width(at(nodes, of)?, node.width, None),
            Operation::Select { of, place } => {
                let value = taken(
                    at(nodes, of)?.value(),
                    index_value(nodes, place)?,
                    node.width,
                );
                Bits::new(node.width, value)
            }
            Operation::Insert { of, place, part } => {
                let (of, part) = (at(nodes, of)?, at(nodes, part)?);
                let place = index_value(nodes, place)?;
                Bits::new(
                    node.width,
                    inserted(of.value(), of.width(), place, part.value(), part.width()),
                )
            }
            Operation::Concat { left, right } => side_by_side(at(nodes, left)?, at(nodes, right)?),
            Operation::Choose { condition, yes, no } => {
                if at(nodes, condition)?.value() == 0 {
                    at(nodes, no)
                } else {
                    at(nodes, yes)
                }
            }
            Operation::Keep { of, .. } => at(nodes, of),
        }
    }

    /// The values of all nodes.
    pub fn nodes(&self, alloc: Global, flat: &Flat) -> Result<Vec<Bits>, Fail> {
        let mut nodes = Vec::new(alloc);
        for node in flat.nodes() {
            let value = self.node(flat, &nodes, node).ok_or("a node has no value")?;
            nodes.push(value)?;
        }
        Ok(nodes)
    }
}
