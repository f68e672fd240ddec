//! Whether the driven parts and the register parts of a draft fit.

ghost use Rattle.std.specs.Prelude.{◌≡◌, ◌↔◌, ◌<◌, ◌≤◌, length, IsTrue};
ghost use Rattle.std.specs.List.{All};
ghost use Rattle.netlist.specs.Fits as fits;

use crate::design::{Block, DrivenPart, Range, RegisterPart, Role, Signal};
use crate::node::Node;
use crate::operations::{has_width, holds, is_width};

// Whether the range lies within a signal that is neither a data input nor a clock name.
fn place_fits(signals: &[Signal], range: &Range) -> bool
    ensures { IsTrue result ↔ fits.PlaceFits signals.now range.now }
{
    match signals.get(range.signal as usize) {
        Some(signal) => {
            is_inner(signal.role)
                && u64::from(range.low) + u64::from(range.width) <= u64::from(signal.width)
        }
        None => false,
    }
}

// Whether a signal of this role may have parts.
fn is_inner(role: Role) -> bool
    ensures { IsTrue result ↔ fits.IsInner role }
{
    match role {
        Role::Inner => true,
        Role::Clock | Role::Input(_) => false,
    }
}

/// Whether each driven part has a place and a node of its width.
pub(crate) fn driven_fit(signals: &[Signal], nodes: &[Node], driven: &[DrivenPart]) -> bool
    ensures { IsTrue result ↔ All (fits.DrivenFits signals.now nodes.now) driven.now }
{
    driven
        .iter()
        .all(|part| driven_part_fits(signals, nodes, part))
}

// Whether a driven part fits.
fn driven_part_fits(signals: &[Signal], nodes: &[Node], part: &DrivenPart) -> bool
    ensures { IsTrue result ↔ fits.DrivenFits signals.now nodes.now part.now }
{
    place_fits(signals, &part.range) && has_width(nodes, part.node, part.range.width)
}

/// Whether each register part has a place, a block, a node of its width and an initial value that fits.
pub(crate) fn registers_fit(
    blocks: &[Block],
    signals: &[Signal],
    nodes: &[Node],
    registers: &[RegisterPart],
) -> bool
    ensures { IsTrue result ↔ All (fits.RegisterFits (length blocks.now) signals.now nodes.now) registers.now }
{
    let count = blocks.len();
    registers
        .iter()
        .all(|part| register_part_fits(count, signals, nodes, part))
}

// Whether a register part fits beside so many blocks.
fn register_part_fits(
    blocks: usize,
    signals: &[Signal],
    nodes: &[Node],
    part: &RegisterPart,
) -> bool
    ensures { IsTrue result ↔ fits.RegisterFits blocks signals.now nodes.now part.now }
{
    place_fits(signals, &part.range)
        && (part.block as usize) < blocks
        && has_width(nodes, part.next, part.range.width)
        && initial_fits(part.range.width, part.initial)
}

// Whether the value has no more bits than the width, of at most `MAX_WIDTH`.
fn initial_fits(width: u32, value: u128) -> bool
    ensures { IsTrue result ↔ fits.InitialFits width value }
{
    is_width(width) && holds(width, value)
}

// Whether the range stands before the other.
fn is_before(range: &Range, other: &Range) -> bool
    ensures { IsTrue result ↔ fits.IsBefore range.now other.now }
{
    let end = u64::from(range.low) + u64::from(range.width);
    range.signal < other.signal || (range.signal == other.signal && end <= u64::from(other.low))
}

/// Whether the driven parts stand in order of signal, then of place, and no two of them share a bit.
pub(crate) fn driven_in_order(driven: &[DrivenPart]) -> bool
    ensures { IsTrue result ↔ fits.DrivenInOrder driven.now }
{
    for number in 1..driven.len() {
        if !is_before(&driven[number - 1].range, &driven[number].range) {
            return false;
        }
    }
    true
}

/// Whether the register parts stand in order of signal, then of place, and no two of them share a bit.
pub(crate) fn registers_in_order(registers: &[RegisterPart]) -> bool
    ensures { IsTrue result ↔ fits.RegistersInOrder registers.now }
{
    for number in 1..registers.len() {
        if !is_before(&registers[number - 1].range, &registers[number].range) {
            return false;
        }
    }
    true
}

/// Whether no driven part shares a bit with a register part.
pub(crate) fn are_apart(driven: &[DrivenPart], registers: &[RegisterPart]) -> bool
    requires driven { fits.DrivenInOrder driven.now }
    requires registers { fits.RegistersInOrder registers.now }
    ensures { IsTrue result ↔ fits.AreAllApart driven.now registers.now }
{
    let mut next = 0;
    for register in registers {
        next = first_not_before(driven, next, &register.range);
        if !is_before_part(&register.range, driven, next) {
            return false;
        }
    }
    true
}

// Whether the range stands before the driven part of this number, if there is one.
fn is_before_part(range: &Range, driven: &[DrivenPart], number: usize) -> bool
    ensures { IsTrue result ↔ fits.IsBeforePart range.now driven.now number }
{
    match driven.get(number) {
        Some(part) => is_before(range, &part.range),
        None => true,
    }
}

// The number of the first driven part from `from` on that doesn't stand before the range; their count where there is
// none.
fn first_not_before(driven: &[DrivenPart], from: usize, range: &Range) -> usize
    requires { from ≤ length driven.now }
    ensures from { (from ≤ result) × (result ≤ length driven.now) }
    ensures before { fits.StandBefore driven.now from result range.now }
    ensures first { fits.IsNotBefore driven.now result range.now }
{
    let mut next = from;
    while next < driven.len() && is_before(&driven[next].range, range) {
        next += 1;
    }
    next
}
