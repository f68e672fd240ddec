//! What settles in a cycle, the next state and what fires, read plainly.

use crate::values::{Values, inserted, whole, word_place};
use bit_ops::Unary;
use dt_core::bits::Bits;
use dt_core::text::Text;
use flat_sim::state::FlatState;
use message_text::telling::Fired;
use message_text::value::append_value;
use netlist::design::{Block, Effect, MemoryWrite, Range, Role, Shown};
use netlist::flat::Flat;
use std::alloc::Global;
use std::test::Fail;

// Puts a value into a range of a signal.
fn put(flat: &Flat, signals: &mut [u128], range: Range, value: u128) -> Result<(), Fail> {
    let signal = range.signal as usize;
    let width = flat.signals().get(signal).ok_or("no such signal")?.width;
    let now = signals.get_mut(signal).ok_or("no such value")?;
    *now = inserted(*now, width, i64::from(range.low), value, range.width);
    Ok(())
}

// What the row, the state and the kept bits say of the signals.
fn given(alloc: Global, flat: &Flat, state: &FlatState, row: &[u128]) -> Result<Vec<u128>, Fail> {
    let mut signals = Vec::new(alloc);
    for signal in flat.signals() {
        let value = match signal.role {
            Role::Clock => 0,
            Role::Input(place) => *row.get(place as usize).ok_or("no such input")?,
            Role::Inner => signal.kept,
        };
        signals.push(value)?;
    }
    for (part, value) in flat.registers().iter().zip(state.registers.iter()) {
        put(flat, signals.as_mut_slice(), part.range, *value)?;
    }
    Ok(signals)
}

// The words of all memories: the state's, and those of memories that no block writes.
fn all_words(alloc: Global, flat: &Flat, state: &FlatState) -> Result<Vec<Vec<u128>>, Fail> {
    let mut memories = Vec::new(alloc);
    for (memory, words) in flat.memories().iter().zip(state.memories.iter()) {
        let words = if memory.writer.is_some() {
            words
        } else {
            &memory.words
        };
        memories.push(words.to_vec(alloc)?)?;
    }
    Ok(memories)
}

// What the row and the state say, with each driven part at its node's value.
fn redriven(alloc: Global, flat: &Flat, given: &[u128], nodes: &[Bits]) -> Result<Vec<u128>, Fail> {
    let mut signals = given.to_vec(alloc)?;
    for part in flat.driven() {
        let node = nodes.get(part.node as usize).ok_or("no such node")?;
        put(flat, signals.as_mut_slice(), part.range, node.value())?;
    }
    Ok(signals)
}

/// The values that settle, and those of the nodes: parts are driven again, all at once, until nothing changes.
pub fn settled(
    alloc: Global,
    flat: &Flat,
    state: &FlatState,
    row: &[u128],
) -> Result<(Values, Vec<Bits>), Fail> {
    let given = given(alloc, flat, state, row)?;
    let memories = all_words(alloc, flat, state)?;
    let signals = given.to_vec(alloc)?;
    let mut values = Values { signals, memories };
    for _ in 0..=flat.driven().len() {
        let nodes = values.nodes(alloc, flat)?;
        let signals = redriven(alloc, flat, &given, &nodes)?;
        if signals == values.signals {
            return Ok((values, nodes));
        }
        values.signals = signals;
    }
    Err("the design doesn't settle".into())
}

/// The state of the first cycle.
pub fn start(alloc: Global, flat: &Flat) -> Result<FlatState, Fail> {
    let mut registers = Vec::new(alloc);
    for part in flat.registers() {
        registers.push(part.initial)?;
    }
    let mut memories = Vec::new(alloc);
    for memory in flat.memories() {
        let words = match memory.writer {
            Some(_) => memory.words.to_vec(alloc)?,
            None => Vec::new(alloc),
        };
        memories.push(words)?;
    }
    Ok(FlatState {
        registers,
        memories,
    })
}

// Does a write to a memory.
fn write(
    flat: &Flat,
    nodes: &[Bits],
    write: &MemoryWrite,
    memories: &mut [Vec<u128>],
) -> Result<(), Fail> {
    let number = write.memory as usize;
    let width = flat.memories().get(number).ok_or("no such memory")?.width;
    let at = word_place(flat, write.memory, nodes, write.index).ok_or("no such index")?;
    let place = nodes.get(write.place.node as usize).ok_or("no such place")?;
    let value = nodes
        .get(write.value as usize)
        .ok_or("no such value")?
        .value();
    let words = memories.get_mut(number).ok_or("no such words")?;
    if let Ok(at) = usize::try_from(at) {
        if let Some(word) = words.get_mut(at) {
            *word = inserted(
                *word,
                width,
                whole(*place, write.place.signed),
                value,
                write.width,
            );
        }
    }
    Ok(())
}

/// The state after a cycle in which the nodes had these values.
pub fn next(
    alloc: Global,
    flat: &Flat,
    state: &FlatState,
    nodes: &[Bits],
) -> Result<FlatState, Fail> {
    let mut registers = Vec::new(alloc);
    for part in flat.registers() {
        registers.push(nodes.get(part.next as usize).ok_or("no such node")?.value())?;
    }
    let mut memories = Vec::new(alloc);
    for words in &state.memories {
        memories.push(words.to_vec(alloc)?)?;
    }
    for one in flat.writes() {
        if nodes
            .get(one.condition as usize)
            .is_some_and(|bits| bits.value() != 0)
        {
            write(flat, nodes, one, memories.as_mut_slice())?;
        }
    }
    Ok(FlatState {
        registers,
        memories,
    })
}

// Appends what an event shows.
fn show(text: &mut Vec<u8>, nodes: &[Bits], shown: &Shown) -> Result<(), Fail> {
    let bits = nodes.get(shown.node as usize).ok_or("no such node")?;
    append_value(
        text,
        shown.base,
        shown.fewest,
        shown.signed,
        bits.width(),
        bits.value(),
    )?;
    Ok(())
}

// What fires of a block, behind what fired; the number of the next stop.
fn block_fired(
    alloc: Global,
    nodes: &[Bits],
    block: &Block,
    first: u32,
    fired: &mut Vec<Fired>,
) -> Result<u32, Fail> {
    let mut stop = first;
    let mut text = Vec::new(alloc);
    for event in &block.events {
        let done = nodes
            .get(event.condition as usize)
            .is_some_and(|bits| bits.value() != 0);
        match &event.effect {
            Effect::Said(more) if done => text.extend_from_slice(more.bytes())?,
            Effect::Showed(shown) if done => show(&mut text, nodes, shown)?,
            Effect::Stopped(_, _) => {
                if done {
                    let message = Text::copied(alloc, &text)?;
                    fired.push(Fired { stop, message })?;
                    text.clear();
                }
                stop = stop.saturating_add(1);
            }
            _ => {}
        }
    }
    Ok(stop)
}

/// The assertions that fire in a cycle in which the nodes have these values.
pub fn fired(alloc: Global, flat: &Flat, nodes: &[Bits]) -> Result<Vec<Fired>, Fail> {
    let mut fired = Vec::new(alloc);
    let mut stop = 0;
    for block in flat.blocks() {
        stop = block_fired(alloc, nodes, block, stop, &mut fired)?;
    }
    Ok(fired)
}
