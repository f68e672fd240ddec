//! The first of the driven parts that each part reads, where each part has a rank.

ghost use Rattle.std.specs.Prelude.{◌≡◌, ◌↔◌, ◌<◌, ◌≤◌, ◌^◌, ℕ, length, slice_index, slice_index_or, Some, None, IsTrue, IfOk};
ghost use Rattle.netlist.specs.Graph.{overlap, operands};
ghost use Rattle.netlist.specs.Fits.{IsBefore, IsWellFormed, DrivenInOrder};
ghost use Rattle.comb_order.specs.First as first;
ghost use Rattle.comb_order.specs.Ranges.{IsStart};

use netlist::design::{DrivenPart, Range};
use netlist::flat::Flat;
use netlist::laws::reads_law;
use netlist::node::Operation;
use std::alloc::{AllocError, Global};

/// The rank of a part; 0 where it has none.
pub(crate) fn rank(ranks: &[u64], part: u32) -> u64
    ensures { result ≡ slice_index ranks.now part }
{
    match ranks.get(part as usize) {
        Some(rank) => *rank,
        None => 0,
    }
}

// Whether a part comes before another, or is the same.
fn comes_first(ranks: &[u64], part: u32, other: u32) -> bool
    ensures { result ≡ first.comes_first ranks.now part other }
{
    let (own, its) = (rank(ranks, part), rank(ranks, other));
    own < its || (own == its && part <= other)
}

// The first of two parts, each of which may be missing.
fn first_of(ranks: &[u64], part: Option<u32>, other: Option<u32>) -> Option<u32>
    ensures { result ≡ first.first_of ranks.now part other }
{
    match (part, other) {
        (None, found) => found,
        (Some(a), None) => Some(a),
        (Some(a), Some(b)) => Some(if comes_first(ranks, a, b) { a } else { b }),
    }
}

/// Whether the range stands before the other.
pub(crate) fn is_before(range: &Range, other: &Range) -> bool
    ensures { IsTrue result ↔ IsBefore range.now other.now }
{
    let end = u64::from(range.low) + u64::from(range.width);
    range.signal < other.signal || (range.signal == other.signal && end <= u64::from(other.low))
}

// Whether two ranges have a bit in common.
fn overlaps(range: &Range, other: &Range) -> bool
    ensures { result ≡ overlap range.now other.now }
{
    let end = u64::from(range.low) + u64::from(range.width);
    let other_end = u64::from(other.low) + u64::from(other.width);
    range.signal == other.signal && u64::from(range.low) < other_end && u64::from(other.low) < end
}

/// How many of the first parts stand before the range, where they stand in order.
pub(crate) fn first_not_before(driven: &[DrivenPart], range: &Range) -> usize
    requires { DrivenInOrder driven.now }
    ensures { IsStart driven.now range.now result }
{
    let mut low = 0;
    let mut high = driven.len();
    while low < high {
        let middle = low + (high - low) / 2;
        if is_before(&driven[middle].range, range) {
            low = middle + 1;
        } else {
            high = middle;
        }
    }
    low
}

// The first of the parts that share a bit with the range.
fn first_shared(driven: &[DrivenPart], ranks: &[u64], range: &Range) -> Option<u32>
    requires order { DrivenInOrder driven.now }
    requires few { length driven.now < 2 ^ 32 }
    ensures { first.IsFirst ranks.now (first.Shares driven.now range.now) result }
{
    let mut found = None;
    for number in first_not_before(driven, range)..driven.len() {
        let part = &driven[number];
        if is_before(range, &part.range) {
            return found;
        }
        if overlaps(range, &part.range) {
            found = first_of(ranks, found, Some(number as u32));
        }
    }
    found
}

// The first of the parts of which an operation reads bits itself.
fn touched_first(driven: &[DrivenPart], ranks: &[u64], operation: Operation) -> Option<u32>
    requires order { DrivenInOrder driven.now }
    requires few { length driven.now < 2 ^ 32 }
    ensures { first.IsFirst ranks.now (first.Touches driven.now operation) result }
{
    match operation {
        Operation::Bits { range } => first_shared(driven, ranks, &range),
        _ => None,
    }
}

// What a node reads first, where that is known of each node below.
fn first_at(firsts: &[Option<u32>], node: u32) -> Option<u32>
    ensures { result ≡ slice_index_or firsts.now node None }
{
    match firsts.get(node as usize) {
        Some(part) => *part,
        None => None,
    }
}

// The first of what the operands of an operation read first.
fn operands_first(ranks: &[u64], firsts: &[Option<u32>], operation: Operation) -> Option<u32>
    ensures { result ≡ first.first_among ranks.now firsts.now None (operands operation) }
{
    match operation {
        Operation::Constant { .. } | Operation::Bits { .. } => None,
        Operation::Word { index, .. } => first_at(firsts, index.node),
        Operation::Unary { of, .. } | Operation::Extend { of, .. } | Operation::Cut { of } => {
            first_at(firsts, of)
        }
        Operation::Binary { left, right, .. } | Operation::Concat { left, right } => {
            first_of(ranks, first_at(firsts, left), first_at(firsts, right))
        }
        Operation::Select { of, place } => {
            first_of(ranks, first_at(firsts, of), first_at(firsts, place.node))
        }
        Operation::Keep { of, also } => {
            first_of(ranks, first_at(firsts, of), first_at(firsts, also))
        }
        Operation::Insert { of, place, part } => {
            let both = first_of(ranks, first_at(firsts, of), first_at(firsts, place.node));
            first_of(ranks, both, first_at(firsts, part))
        }
        Operation::Choose { condition, yes, no } => {
            let both = first_of(ranks, first_at(firsts, condition), first_at(firsts, yes));
            first_of(ranks, both, first_at(firsts, no))
        }
    }
}

// What a node reads first, where that is known of each node below.
fn node_first(flat: &Flat, ranks: &[u64], firsts: &[Option<u32>], number: usize) -> Option<u32>
    requires within { number < length flat.now.nodes }
    requires count { length firsts.now ≡ number }
    requires below { first.NodesFirst flat.now ranks.now firsts.now }
    ensures { first.IsFirst ranks.now (first.NodeReads flat.now number) result }
{
    reads_law();
    let operation = flat.nodes()[number].operation;
    let own = touched_first(flat.driven(), ranks, operation);
    first_of(ranks, own, operands_first(ranks, firsts, operation))
}

// What each node reads first.
fn nodes_first(alloc: Global, flat: &Flat, ranks: &[u64]) -> Result<Vec<Option<u32>>, AllocError>
    ensures count { IfOk result (λ v. length v.items ≡ length flat.now.nodes) }
    ensures each { IfOk result (λ v. first.NodesFirst flat.now ranks.now v.items) }
{
    let mut firsts = Vec::new(alloc);
    for number in 0..flat.nodes().len() {
        firsts.push(node_first(flat, ranks, &firsts, number))?;
    }
    Ok(firsts)
}

/// Of each driven part the first part that it reads: that of the lowest rank, and among those of the lowest number.
pub(crate) fn first_reads(
    alloc: Global,
    flat: &Flat,
    ranks: &[u64],
) -> Result<Vec<Option<u32>>, AllocError>
    ensures { IfOk result (λ v. first.AreFirst flat.now ranks.now v.items) }
{
    let nodes = nodes_first(alloc, flat, ranks)?;
    let mut firsts = Vec::new(alloc);
    for part in flat.driven() {
        firsts.push(first_at(&nodes, part.node))?;
    }
    Ok(firsts)
}
