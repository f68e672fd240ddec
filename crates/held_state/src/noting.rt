//! What a cycle changes, noted in a journal: each register part and each word that takes another value, with its old one.

ghost use Rattle.std.specs.Prelude.{◌≡◌, ◌≤◌, ◌<◌, ◌+◌, ℕ, List, length, map, slice_index, IfSome, IfNone};
ghost use Rattle.netlist.specs.Run.{after_writes, written};
ghost use Rattle.step_program.specs.Values.{contents};
ghost use Rattle.step_program.specs.Plan.{held};
ghost use Rattle.held_state.specs.Kept as kept;
ghost use Rattle.held_state.specs.Moves.{next_numbers};
ghost use Rattle.held_state.specs.Noting as noting;
ghost use Rattle.held_state.specs.Slots.{numbers};
ghost use Rattle.held_state.specs.States.{RegistersFit};
ghost use Rattle.held_state.specs.Writes as writes;

use crate::nodes::Nodes;
use crate::writes::{word_place, write_one};
use netlist::design::MemoryWrite;
use state_changes::changes::{Change, Element};
use state_changes::journal::Journal;
use step_program::step::Slot;
use step_program::words::{MemoryWords, SlotValues};

/// Notes an element's old value, where it takes another one. It takes no memory.
pub fn note(journal: &mut Journal<Change>, element: Element, old: u128, new: u128)
    requires { 0 < journal.old.room }
    ensures fresh { journal.new.fresh ≡ noting.with_note element old new journal.old.fresh }
    ensures room { journal.old.room ≤ journal.new.room + 1 }
    ensures cycles { journal.new.cycles ≡ journal.old.cycles }
    ensures most { journal.new.most ≡ journal.old.most }
{
    if old == new {
        return;
    }
    journal.note(Change { element, old });
}

// The word at a place.
fn word_at(words: &MemoryWords, place: usize) -> u128
    requires { place < length (contents words.now) }
    ensures { result ≡ slice_index (contents words.now) place }
{
    match words {
        MemoryWords::Narrow(words) => u128::from(words[place]),
        MemoryWords::Wide(words) => words[place],
    }
}

// The place of the word to which a write goes; none outside of its memory.
fn place_of(nodes: &Nodes, write: &MemoryWrite) -> Option<usize>
    requires { writes.IsWriteOf nodes.now.flat write.now }
    ensures some { IfSome result (noting.GoesTo nodes.now.flat nodes.now.numbers write.now) }
    ensures none { IfNone result (noting.GoesOutside nodes.now.flat nodes.now.numbers write.now) }
{
    let memory = &nodes.flat.memories()[write.memory as usize];
    let least = memory.first.min(memory.last);
    word_place(nodes.index(write.index), least, memory.words.len())
}

// Does a write, and notes the word that takes another value.
fn note_write(
    nodes: &Nodes,
    write: &MemoryWrite,
    words: &mut [MemoryWords],
    journal: &mut Journal<Change>,
)
    requires write { writes.IsWriteOf nodes.now.flat write.now }
    requires kept { kept.AllKept nodes.now.flat.memories words.old }
    requires room { 0 < journal.old.room }
    ensures kept { kept.AllKept nodes.now.flat.memories words.new }
    ensures value { map contents words.new
        ≡ written nodes.now.flat nodes.now.numbers write.now (map contents words.old) }
    ensures noted { noting.AddsWords nodes.now.flat journal.old.fresh journal.new.fresh words.old words.new }
    ensures room { journal.old.room ≤ journal.new.room + 1 }
    ensures cycles { journal.new.cycles ≡ journal.old.cycles }
    ensures most { journal.new.most ≡ journal.old.most }
{
    let Some(place) = place_of(nodes, write) else {
        return;
    };
    let memory = write.memory;
    let old = word_at(&words[memory as usize], place);
    write_one(nodes, write, words);
    let new = word_at(&words[memory as usize], place);
    note(journal, Element::Word(memory, place), old, new);
}

/// Does the writes of a cycle, in order, and notes the words that take other values. It takes no memory.
pub fn note_writes(nodes: &Nodes, words: &mut [MemoryWords], journal: &mut Journal<Change>)
    requires kept { kept.AllKept nodes.now.flat.memories words.old }
    requires room { length nodes.now.flat.writes ≤ journal.old.room }
    ensures kept { kept.AllKept nodes.now.flat.memories words.new }
    ensures value { map contents words.new
        ≡ after_writes nodes.now.flat nodes.now.numbers nodes.now.flat.writes (map contents words.old) }
    ensures noted { noting.AddsWords nodes.now.flat journal.old.fresh journal.new.fresh words.old words.new }
    ensures room { journal.old.room ≤ journal.new.room + length nodes.now.flat.writes }
    ensures cycles { journal.new.cycles ≡ journal.old.cycles }
    ensures most { journal.new.most ≡ journal.old.most }
{
    for one in nodes.flat.writes() {
        if nodes.holds(one.condition) {
            note_write(nodes, one, words, journal);
        }
    }
}

/// Notes the register parts, which have these slots, whose next values are others than their own. It takes no memory.
pub fn note_registers(
    nodes: &Nodes,
    given: &[Slot],
    values: &SlotValues,
    journal: &mut Journal<Change>,
)
    requires slots { length given.now ≡ length nodes.now.flat.registers }
    requires fit { RegistersFit nodes.now.flat.registers (numbers (held values.now) given.now) }
    requires room { length nodes.now.flat.registers ≤ journal.old.room }
    ensures noted { noting.AddsRegisters nodes.now.flat journal.old.fresh journal.new.fresh
        (numbers (held values.now) given.now) (next_numbers nodes.now.flat nodes.now.numbers) }
    ensures cycles { journal.new.cycles ≡ journal.old.cycles }
    ensures most { journal.new.most ≡ journal.old.most }
{
    for (k, part) in nodes.flat.registers().iter().enumerate() {
        let old = values.value(given[k]);
        note(journal, Element::Register(k), old, nodes.number(part.next));
    }
}
