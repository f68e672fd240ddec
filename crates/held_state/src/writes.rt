//! Writes to memories, in place.

ghost use Rattle.std.specs.Prelude.{◌≡◌, ◌≤◌, ◌<◌, ◌^◌, length, map, slice_index, slice_set, pos, IfSome, IfNone, ◌-ℤ◌};
ghost use Rattle.std.specs.List.{All};
ghost use Rattle.bit_ops.specs.Operators as ops;
ghost use Rattle.netlist.specs.Run.{after_writes, written};
ghost use Rattle.step_program.specs.Values.{contents};
ghost use Rattle.step_program.specs.Plan.{held};
ghost use Rattle.step_program.specs.Running.{whole_of};
ghost use Rattle.held_state.specs.Kept as kept;
ghost use Rattle.held_state.specs.Slots.{numbers};
ghost use Rattle.held_state.specs.Writes as writes;

use crate::nodes::Nodes;
use dt_core::bits::Bits;
use dt_core::limits::MAX_WIDTH;
use netlist::design::{Memory, MemoryWrite};
use step_program::rare::{Whole, inserted};
use step_program::words::MemoryWords;

// A word with the bits of another number from a place on; what falls outside of the word is lost. Most writes are of
// whole words, for which no mask is needed.
fn word_with(word: u128, width: u32, from: Whole, part: Bits) -> u128
    requires width { (1 ≤ width) × (width ≤ MAX_WIDTH) }
    requires word { word < 2 ^ width }
    ensures fits { result < 2 ^ width }
    ensures value { result ≡ ops.insert width (whole_of from) part.width part.value word }
{
    match from {
        Whole::Up(0) if part.width() == width => part.value(),
        Whole::Up(_) | Whole::Below(_) => inserted(Bits::of(width, word), from, part).value(),
    }
}

// Puts bits into the word at a place, from a bit on.
fn put_bits(words: &mut MemoryWords, place: usize, width: u32, from: Whole, part: Bits)
    requires words { kept.AreWords width words.old }
    requires place { place < length (contents words.old) }
    requires width { (1 ≤ width) × (width ≤ MAX_WIDTH) }
    ensures words { kept.AreWords width words.new }
    ensures value { contents words.new ≡ slice_set (contents words.old) place
        (ops.insert width (whole_of from) part.width part.value (slice_index (contents words.old) place)) }
{
    match words {
        MemoryWords::Narrow(words) => {
            words[place] = word_with(u128::from(words[place]), width, from, part) as u64;
        }
        MemoryWords::Wide(words) => words[place] = word_with(words[place], width, from, part),
    }
}

/// The place of the word at an index; none where no word of so many stands there.
pub fn word_place(index: Whole, least: u32, count: usize) -> Option<usize>
    ensures some { IfSome result (λ k. (whole_of index -ℤ pos least ≡ pos k) × (k < count)) }
    ensures none { IfNone result (writes.IsOutside count (whole_of index -ℤ pos least)) }
{
    match index {
        Whole::Up(index) if index >= u128::from(least) => {
            let place = index - u128::from(least);
            if place < count as u128 {
                Some(place as usize)
            } else {
                None
            }
        }
        Whole::Up(_) | Whole::Below(_) => None,
    }
}

// Does a write to the words of its memory: bits of one word change, and none outside.
fn write_to(nodes: &Nodes, write: &MemoryWrite, memory: &Memory, words: &mut MemoryWords)
    requires write { writes.IsWriteOf nodes.now.flat write.now }
    requires width { (1 ≤ memory.now.width) × (memory.now.width ≤ MAX_WIDTH) }
    requires kept { kept.IsKept memory.now words.old }
    ensures words { kept.AreWords memory.now.width words.new }
    ensures value { contents words.new ≡ writes.word_written nodes.now write.now memory.now (contents words.old) }
{
    let least = memory.first.min(memory.last);
    let place = word_place(nodes.index(write.index), least, memory.words.len());
    if let Some(place) = place {
        let from = nodes.index(write.place);
        put_bits(words, place, memory.width, from, nodes.bits(write.value));
    }
}

/// Does a write. It takes no memory.
pub fn write_one(nodes: &Nodes, write: &MemoryWrite, words: &mut [MemoryWords])
    requires write { writes.IsWriteOf nodes.now.flat write.now }
    requires kept { kept.AllKept nodes.now.flat.memories words.old }
    ensures kept { kept.AllKept nodes.now.flat.memories words.new }
    ensures value { map contents words.new
        ≡ written nodes.now.flat nodes.now.numbers write.now (map contents words.old) }
{
    let place = write.memory as usize;
    let memory = &nodes.flat.memories()[place];
    write_to(nodes, write, memory, &mut words[place]);
}

/// Does the writes of a cycle, in order. It takes no memory.
pub fn write_memories(nodes: &Nodes, words: &mut [MemoryWords])
    requires kept { kept.AllKept nodes.now.flat.memories words.old }
    ensures kept { kept.AllKept nodes.now.flat.memories words.new }
    ensures value { map contents words.new
        ≡ after_writes nodes.now.flat nodes.now.numbers nodes.now.flat.writes (map contents words.old) }
{
    for one in nodes.flat.writes() {
        if nodes.holds(one.condition) {
            write_one(nodes, one, words);
        }
    }
}
