//! Changes undone, from the newest on: each register part and each word takes its old value again.

ghost use Rattle.std.specs.Prelude.{◌≡◌, ◌≤◌, ◌<◌, ◌^◌, [], length, slice_set};
ghost use Rattle.std.specs.List.{All};
ghost use Rattle.netlist.specs.Fits.{IsWellFormed};
ghost use Rattle.step_program.specs.Values.{contents};
ghost use Rattle.step_program.specs.Plan.{held};
ghost use Rattle.net_compile.specs.Compiles.{Compiles};
ghost use Rattle.state_changes.specs.Changes.{undone, with_value};
ghost use Rattle.held_state.specs.Back.{ChangeFits};
ghost use Rattle.held_state.specs.Kept as kept;
ghost use Rattle.held_state.specs.Noting.{CanRun, held_state};

use crate::given::put;
use dt_core::limits::MAX_WIDTH;
use net_compile::compiled::Compiled;
use netlist::flat::Flat;
use state_changes::changes::{Change, Element};
use state_changes::journal::Journal;
use step_program::words::{MemoryWords, SlotValues};

// Puts a number of this width into the word at a place.
fn put_word(words: &mut MemoryWords, place: usize, width: u32, number: u128)
    requires words { kept.AreWords width words.old }
    requires place { place < length (contents words.old) }
    requires width { width ≤ MAX_WIDTH }
    requires number { number < 2 ^ width }
    ensures words { kept.AreWords width words.new }
    ensures value { contents words.new ≡ slice_set (contents words.old) place number }
{
    match words {
        MemoryWords::Narrow(words) => words[place] = number as u64,
        MemoryWords::Wide(words) => words[place] = number,
    }
}

// Undoes a change.
fn undo(
    flat: &Flat,
    compiled: &Compiled,
    change: Change,
    words: &mut [MemoryWords],
    slots: &mut SlotValues,
)
    requires fits { IsWellFormed flat.now }
    requires compiles { Compiles flat.now compiled.now }
    requires change { ChangeFits flat.now change }
    requires can_run { CanRun flat.now compiled.now (held slots.old) words.old }
    ensures can_run { CanRun flat.now compiled.now (held slots.new) words.new }
    ensures state { held_state flat.now compiled.now (held slots.new) words.new
        ≡ with_value (held_state flat.now compiled.now (held slots.old) words.old) change.element change.old }
{
    match change.element {
        Element::Register(number) => put(slots, compiled.given()[number], change.old),
        Element::Word(memory, place) => {
            let number = memory as usize;
            let memory = &flat.memories()[number];
            put_word(&mut words[number], place, memory.width, change.old);
        }
    }
}

/// Undoes all that was noted since the last cycle was closed. It takes no memory.
pub fn undo_all(
    flat: &Flat,
    compiled: &Compiled,
    journal: &mut Journal<Change>,
    words: &mut [MemoryWords],
    slots: &mut SlotValues,
)
    requires fits { IsWellFormed flat.now }
    requires compiles { Compiles flat.now compiled.now }
    requires notes { All (ChangeFits flat.now) journal.old.fresh }
    requires can_run { CanRun flat.now compiled.now (held slots.old) words.old }
    ensures can_run { CanRun flat.now compiled.now (held slots.new) words.new }
    ensures state { held_state flat.now compiled.now (held slots.new) words.new
        ≡ undone journal.old.fresh (held_state flat.now compiled.now (held slots.old) words.old) }
    ensures fresh { journal.new.fresh ≡ [] }
    ensures cycles { journal.new.cycles ≡ journal.old.cycles }
    ensures most { journal.new.most ≡ journal.old.most }
{
    while let Some(change) = journal.undo() {
        undo(flat, compiled, change, words, slots);
    }
}
