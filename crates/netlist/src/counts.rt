//! Whether a draft keeps the limits.

ghost use Rattle.std.specs.Prelude.{◌≡◌, ◌↔◌, ◌^◌, ◌<◌, ◌≤◌, ◌+◌, length, IsTrue};
ghost use Rattle.std.specs.List.{sum_by};
ghost use Rattle.netlist.specs.Fits as fits;

use crate::design::{Block, Memory, RegisterPart, Role, Signal};
use dt_core::limits::{MAX_INPUT_BITS, MAX_INPUTS, MAX_SIGNALS, MAX_WORDS};

/// Whether so many things can be numbered.
pub(crate) fn can_be_numbered(count: usize) -> bool
    ensures { IsTrue result ↔ (count < 2 ^ 32) }
{
    count <= u32::MAX as usize
}

/// Whether no more signals stand in a scope than the limit.
pub(crate) fn has_few_signals(signals: &[Signal]) -> bool
    ensures { IsTrue result ↔ fits.HasFewSignals signals.now }
{
    let seen = signals
        .iter()
        .filter(|signal| signal.scope.is_some())
        .count();
    seen <= MAX_SIGNALS as usize
}

/// Whether the data inputs and their bits are no more than the limits.
pub(crate) fn has_few_inputs(signals: &[Signal], inputs: &[u32]) -> bool
    requires { length signals.now < 2 ^ 32 }
    ensures { IsTrue result ↔ fits.HasFewInputs signals.now inputs.now }
{
    inputs.len() <= MAX_INPUTS as usize && input_bits(signals) <= u64::from(MAX_INPUT_BITS)
}

// The bits of all data inputs.
fn input_bits(signals: &[Signal]) -> u64
    requires { length signals.now < 2 ^ 32 }
    ensures { result ≡ sum_by (λ s. fits.input_width s.width s.role) signals.now }
{
    signals
        .iter()
        .map(|signal| u64::from(input_width(signal.width, signal.role)))
        .sum()
}

// The bits of a signal that a row gives.
fn input_width(width: u32, role: Role) -> u32
    ensures { result ≡ fits.input_width width role }
{
    match role {
        Role::Input(_) => width,
        Role::Clock | Role::Inner => 0,
    }
}

/// Whether the memories have no more words than the limit, and their bits and those of the register parts can be
/// numbered.
pub(crate) fn has_few_words_and_bits(registers: &[RegisterPart], memories: &[Memory]) -> bool
    requires { length registers.now < 2 ^ 32 }
    ensures { IsTrue result ↔ (fits.HasFewWords memories.now × (fits.state_bits registers.now memories.now < 2 ^ 32)) }
{
    has_few_words(memories) && has_few_bits(registers, memories)
}

// Whether the memories have no more words than the limit.
fn has_few_words(memories: &[Memory]) -> bool
    ensures { IsTrue result ↔ fits.HasFewWords memories.now }
{
    let mut left = MAX_WORDS as usize;
    for memory in memories {
        match left.checked_sub(memory.words.len()) {
            Some(less) => left = less,
            None => return false,
        }
    }
    true
}

/// Whether the events of all blocks can be numbered.
pub(crate) fn has_few_events(blocks: &[Block]) -> bool
    ensures { IsTrue result ↔ (fits.event_count blocks.now < 2 ^ 32) }
{
    let mut left = u32::MAX as usize;
    for block in blocks {
        match left.checked_sub(block.events.len()) {
            Some(less) => left = less,
            None => return false,
        }
    }
    true
}

// Whether the bits of the register parts and of the memory words can be numbered.
fn has_few_bits(registers: &[RegisterPart], memories: &[Memory]) -> bool
    requires registers { length registers.now < 2 ^ 32 }
    requires words { fits.HasFewWords memories.now }
    ensures { IsTrue result ↔ (fits.state_bits registers.now memories.now < 2 ^ 32) }
{
    match u64::from(u32::MAX).checked_sub(register_bits(registers)) {
        Some(left) => take_few_bits(memories, left),
        None => false,
    }
}

// The bits of all register parts.
fn register_bits(registers: &[RegisterPart]) -> u64
    requires { length registers.now < 2 ^ 32 }
    ensures { result ≡ sum_by (λ p. p.range.width) registers.now }
{
    registers
        .iter()
        .map(|part| u64::from(part.range.width))
        .sum()
}

// Whether the words of all memories have no more bits than are left.
fn take_few_bits(memories: &[Memory], most: u64) -> bool
    requires { fits.HasFewWords memories.now }
    ensures { IsTrue result ↔ (fits.memory_bits memories.now ≤ most) }
{
    let mut left = most;
    for memory in memories {
        let words = memory.words.len() as u64;
        match left.checked_sub(u64::from(memory.width) * words) {
            Some(less) => left = less,
            None => return false,
        }
    }
    true
}
