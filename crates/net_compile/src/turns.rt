//! In which order nodes are made to steps: each after the nodes that it reads and after the nodes of the driven parts
//! that it reads.

ghost use Rattle.netlist.specs.Fits.{AreInOrder};

use crate::layout::Layout;
use crate::ranges::first_not_before;
use netlist::design::Range;
use netlist::flat::Flat;
use netlist::node::Operation;
use std::alloc::{AllocError, Global};

// The turn of each driven part: its place in the order, from 1 on.
fn part_turns(alloc: Global, parts: usize, order: &[u32]) -> Result<Vec<u32>, AllocError> {
    let mut turns = vec![in alloc; 0u32; parts]?;
    let mut turn: u32 = 0;
    for part in order {
        turn = turn.saturating_add(1);
        if let Some(own) = turns.get_mut(*part as usize) {
            *own = turn;
        }
    }
    Ok(turns)
}

// The turn of this number; 0 where there is none.
fn turn_at(turns: &[u32], number: usize) -> u32 {
    match turns.get(number) {
        Some(turn) => *turn,
        None => 0,
    }
}

// The latest turn of the driven parts that share a bit with a range.
fn latest_part(layout: &Layout, turns: &[u32], range: &Range) -> u32
    requires { AreInOrder (λ r. r) layout.now.driven.items }
{
    let end = range.low.saturating_add(range.width);
    let mut latest = 0;
    for part in first_not_before(&layout.driven, range.signal, range.low)..layout.driven.len() {
        let other = &layout.driven[part];
        if other.signal != range.signal || end <= other.low {
            return latest;
        }
        latest = latest.max(turn_at(turns, part));
    }
    latest
}

// The latest turn of the nodes that an operation reads.
fn latest_operand(turns: &[u32], operation: Operation) -> u32 {
    let mut latest = 0;
    for operand in operation.operands() {
        if let Some(node) = operand {
            latest = latest.max(turn_at(turns, node as usize));
        }
    }
    latest
}

// The turn of each node: that of the latest driven part that it reads, itself or through others.
fn node_turns(
    alloc: Global,
    flat: &Flat,
    layout: &Layout,
    order: &[u32],
) -> Result<Vec<u32>, AllocError>
    requires { AreInOrder (λ r. r) layout.now.driven.items }
{
    let parts = part_turns(alloc, flat.driven().len(), order)?;
    let mut turns = Vec::new(alloc);
    for node in flat.nodes() {
        turns.push(match node.operation {
            Operation::Bits { range } => latest_part(layout, &parts, &range),
            _ => latest_operand(&turns, node.operation),
        })?;
    }
    Ok(turns)
}

/// The nodes by number, those of an earlier turn first, and those of one turn from the lowest on.
pub(crate) fn in_turn(
    alloc: Global,
    flat: &Flat,
    layout: &Layout,
    order: &[u32],
) -> Result<Vec<u32>, AllocError>
    requires { AreInOrder (λ r. r) layout.now.driven.items }
{
    let turns = node_turns(alloc, flat, layout, order)?;
    let mut nodes = Vec::new(alloc);
    for number in 0..flat.nodes().len() {
        nodes.push(number as u32)?;
    }
    nodes.sort_by_key(|node| turn_at(&turns, *node as usize))?;
    Ok(nodes)
}
