//! Whether the memories, the writes and the blocks of a draft fit.

ghost use Rattle.std.specs.Prelude.{◌≡◌, ◌↔◌, ◌^◌, ◌<◌, length, slice_get, IsTrue};
ghost use Rattle.std.specs.List.{All};
ghost use Rattle.netlist.specs.Fits as fits;

use crate::design::{Block, Effect, Event, Memory, MemoryWrite, Scope};
use crate::node::Node;
use crate::operations::{has_width, holds, is_node, is_width};
use crate::signals::is_none_or_below;

/// Whether each memory has words of a width, as many as its indices say, and a writer that is there.
pub(crate) fn memories_fit(blocks: &[Block], memories: &[Memory]) -> bool
    ensures { IsTrue result ↔ All (fits.MemoryFits (length blocks.now)) memories.now }
{
    let count = blocks.len();
    memories.iter().all(|memory| memory_fits(count, memory))
}

// Whether a memory fits beside so many blocks.
fn memory_fits(blocks: usize, memory: &Memory) -> bool
    ensures { IsTrue result ↔ fits.MemoryFits blocks memory.now }
{
    is_width(memory.width)
        && memory.words.len() as u64 == word_count(memory.first, memory.last)
        && words_fit(memory.width, &memory.words)
        && is_none_or_below(blocks, memory.writer)
}

// The number of words from the one index to the other.
fn word_count(first: u32, last: u32) -> u64
    ensures { result ≡ fits.word_count first last }
{
    u64::from(first.max(last) - first.min(last)) + 1
}

// Whether each word is below 2^width.
fn words_fit(width: u32, words: &[u128]) -> bool
    requires { fits.IsWidth width }
    ensures { IsTrue result ↔ All (λ w. w < 2 ^ width) words.now }
{
    words.iter().all(|word| holds(width, *word))
}

/// Whether each write is by its memory's one writer, and its nodes are there.
pub(crate) fn writes_fit(
    blocks: &[Block],
    memories: &[Memory],
    nodes: &[Node],
    writes: &[MemoryWrite],
) -> bool
    ensures { IsTrue result ↔ All (fits.WriteFits (length blocks.now) memories.now nodes.now) writes.now }
{
    let count = blocks.len();
    writes
        .iter()
        .all(|write| write_fits(count, memories, nodes, write))
}

// Whether a write fits beside so many blocks.
fn write_fits(blocks: usize, memories: &[Memory], nodes: &[Node], write: &MemoryWrite) -> bool
    ensures { IsTrue result ↔ fits.WriteFits blocks memories.now nodes.now write.now }
{
    (write.block as usize) < blocks
        && is_written_by(memories, write.memory, write.block)
        && is_node(nodes, write.condition)
        && is_node(nodes, write.index.node)
        && is_node(nodes, write.place.node)
        && has_width(nodes, write.value, write.width)
}

// Whether the memory is there and this block is its writer.
fn is_written_by(memories: &[Memory], memory: u32, block: u32) -> bool
    ensures { IsTrue result ↔ fits.IsWrittenBy memories.now memory block }
{
    match memories.get(memory as usize) {
        Some(memory) => is_some_of(memory.writer, block),
        None => false,
    }
}

// Whether there is a number, and it is this one.
fn is_some_of(number: Option<u32>, wanted: u32) -> bool
    ensures { IsTrue result ↔ fits.IsSomeOf number wanted }
{
    match number {
        Some(number) => number == wanted,
        None => false,
    }
}

/// Whether each block stands in a scope that is there, and so the nodes of its events.
pub(crate) fn blocks_fit(scopes: &[Scope], nodes: &[Node], blocks: &[Block]) -> bool
    ensures { IsTrue result ↔ All (fits.BlockFits (length scopes.now) nodes.now) blocks.now }
{
    let count = scopes.len();
    blocks.iter().all(|block| block_fits(count, nodes, block))
}

// Whether a block fits beside so many scopes.
fn block_fits(scopes: usize, nodes: &[Node], block: &Block) -> bool
    ensures { IsTrue result ↔ fits.BlockFits scopes nodes.now block.now }
{
    (block.scope as usize) < scopes && events_fit(nodes, &block.events)
}

// Whether the nodes of each event are there.
fn events_fit(nodes: &[Node], events: &[Event]) -> bool
    ensures { IsTrue result ↔ All (fits.EventFits nodes.now) events.now }
{
    events.iter().all(|event| event_fits(nodes, event))
}

// Whether the nodes of an event are there.
fn event_fits(nodes: &[Node], event: &Event) -> bool
    ensures { IsTrue result ↔ fits.EventFits nodes.now event.now }
{
    is_node(nodes, event.condition) && effect_fits(nodes, &event.effect)
}

// Whether the node that an effect shows is there, if it shows one.
fn effect_fits(nodes: &[Node], effect: &Effect) -> bool
    ensures { IsTrue result ↔ fits.EffectFits nodes.now effect.now }
{
    match effect {
        Effect::Said(_) | Effect::Stopped(_, _) => true,
        Effect::Showed(shown) => is_node(nodes, shown.node),
    }
}
