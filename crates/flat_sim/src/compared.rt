//! Which register parts take other values in a cycle, noted before they do: where all are narrow, by the moves that give
//! them their next values.

ghost use Rattle.std.specs.Prelude.{◌≡◌, ◌≤◌, length};
ghost use Rattle.netlist.specs.Fits.{IsWellFormed};
ghost use Rattle.step_program.specs.Plan.{held, IsReady};
ghost use Rattle.net_compile.specs.Compiles.{Compiles};
ghost use Rattle.held_state.specs.Moves as moving;
ghost use Rattle.held_state.specs.Moves.{next_numbers};
ghost use Rattle.held_state.specs.Noting as noting;
ghost use Rattle.held_state.specs.Slots.{numbers};
ghost use Rattle.held_state.specs.States.{RegistersFit};
ghost use Rattle.flat_sim.specs.Compared as compared;

use held_state::commits::{Commit, Move};
use held_state::given::first_slots;
use held_state::nodes::Nodes;
use held_state::noting::{note, note_registers};
use net_compile::compiled::Compiled;
use netlist::flat::Flat;
use state_changes::changes::{Change, Element};
use state_changes::journal::Journal;
use step_program::words::SlotValues;

// Notes the register parts whose next values are others than their own, where each takes its next value by one of these
// moves, in order of number.
fn note_moved(flat: &Flat, moves: &[Move], slots: &[u64], journal: &mut Journal<Change>)
    requires count { length moves.now ≡ length flat.now.registers }
    requires there { moving.AreThere (length slots.now) moves.now }
    requires fit { RegistersFit flat.now.registers (compared.to_numbers slots.now moves.now) }
    requires room { length flat.now.registers ≤ journal.old.room }
    ensures noted { noting.AddsRegisters flat.now journal.old.fresh journal.new.fresh
        (compared.to_numbers slots.now moves.now) (moving.moved 0 slots.now moves.now) }
    ensures cycles { journal.new.cycles ≡ journal.old.cycles }
    ensures most { journal.new.most ≡ journal.old.most }
{
    for (k, one) in moves.iter().enumerate() {
        let old = u128::from(slots[one.to as usize]);
        let new = u128::from(slots[one.from as usize]);
        note(journal, Element::Register(k), old, new);
    }
}

/// Notes the register parts whose next values are others than their own. It takes no memory.
pub(crate) fn note_next(
    flat: &Flat,
    nodes: &Nodes,
    compiled: &Compiled,
    commit: &Commit,
    slots: &SlotValues,
    journal: &mut Journal<Change>,
)
    requires nodes { nodes.now ≡ record { flat = flat.now; numbers = numbers (held slots.now) compiled.now.nodes } }
    requires fits { IsWellFormed flat.now }
    requires compiles { Compiles flat.now compiled.now }
    requires ready { IsReady compiled.now.plan (held slots.now) }
    requires commit { moving.IsCommitOf flat.now compiled.now commit.now }
    requires fit { RegistersFit flat.now.registers (moving.register_numbers flat.now compiled.now (held slots.now)) }
    requires room { length flat.now.registers ≤ journal.old.room }
    ensures noted { noting.AddsRegisters flat.now journal.old.fresh journal.new.fresh
        (moving.register_numbers flat.now compiled.now (held slots.now))
        (next_numbers flat.now (numbers (held slots.now) compiled.now.nodes)) }
    ensures cycles { journal.new.cycles ≡ journal.old.cycles }
    ensures most { journal.new.most ≡ journal.old.most }
{
    let count = flat.registers().len();
    if commit.moves.narrow.len() == count {
        return note_moved(flat, &commit.moves.narrow, &slots.narrow, journal);
    }
    let given = first_slots(compiled.given(), count);
    note_registers(nodes, given, slots, journal)
}
