//! How the register parts take the values of their next nodes, at the end of a cycle: by moves between slots, which are
//! listed at the start. Where the slot of a next node may be that of a register part, all numbers are read before the first
//! slot is written.

ghost use Rattle.std.specs.Prelude.{◌≡◌, ◌<◌, ◌≤◌, ◌++◌, length, map, slice_index, take, IfOk, OnOk, IsTrue};
ghost use Rattle.std.specs.List.{All};
ghost use Rattle.netlist.specs.Fits.{IsWellFormed};
ghost use Rattle.step_program.specs.Plan.{held, IsReady};
ghost use Rattle.net_compile.specs.Compiles.{Compiles};
ghost use Rattle.held_state.specs.Moves as moving;
ghost use Rattle.held_state.specs.Slots.{numbers};

use dt_core::fault::NoMemory;
use net_compile::compiled::Compiled;
use netlist::design::RegisterPart;
use netlist::flat::Flat;
use std::alloc::{AllocError, Global};
use step_program::step::Slot;
use step_program::words::SlotValues;

/// A slot that takes the number of another one of its kind.
#[derive(Clone, Copy)]
pub struct Move {
    pub from: u32,
    pub to: u32,
}

/// Moves of narrow slots, and of wide ones.
#[derive(Drop)]
pub struct Moves {
    pub narrow: Vec<Move>,
    pub wide: Vec<Move>,
}

/// Moves that are done at once: whether those of narrow slots may be done in turn, and room for the numbers on their way.
#[derive(Drop)]
pub struct Commit {
    pub moves: Moves,
    pub in_turn: bool,
    pub narrow_room: Vec<u64>,
    pub wide_room: Vec<u128>,
}

impl Moves {
    // Adds a move between slots of one kind.
    fn add(&mut self, to: Slot, from: Slot) -> Result<(), AllocError>
        ensures narrow { OnOk result (self.new.narrow.items ≡ self.old.narrow.items ++ moving.narrow_move to from) }
        ensures wide { OnOk result (self.new.wide.items ≡ self.old.wide.items ++ moving.wide_move to from) }
    {
        match (to, from) {
            (Slot::Narrow(to), Slot::Narrow(from)) => self.narrow.push(Move { from, to })?,
            (Slot::Wide(to), Slot::Wide(from)) => self.wide.push(Move { from, to })?,
            (Slot::Narrow(_), Slot::Wide(_)) | (Slot::Wide(_), Slot::Narrow(_)) => {}
        }
        Ok(())
    }

    // A move to each of these slots, from the one at its place in the other list.
    fn between(alloc: Global, to: &[Slot], from: &[Slot]) -> Result<Moves, AllocError>
        requires { length to.now ≡ length from.now }
        ensures { IfOk result (λ m. moving.AreMoves to.now from.now m) }
    {
        let mut moves = Moves {
            narrow: Vec::new(alloc),
            wide: Vec::new(alloc),
        };
        for (k, slot) in to.iter().enumerate() {
            moves.add(*slot, from[k])?;
        }
        Ok(moves)
    }
}

// Reads the numbers that are moved.
fn read<T: Copy>(moves: &[Move], slots: &[T], room: &mut [T])
    requires there { All (λ m. m.from < length slots.now) moves.now }
    requires room { length room.old ≡ length moves.now }
    ensures { moving.HaveMoved slots.now moves.now room.new }
{
    for (k, one) in moves.iter().enumerate() {
        room[k] = slots[one.from as usize];
    }
}

// Writes them.
fn write<T: Copy>(moves: &[Move], room: &[T], slots: &mut [T])
    requires there { All (λ m. m.to < length slots.old) moves.now }
    requires room { length room.now ≡ length moves.now }
    ensures { slots.new ≡ moving.with_moved slots.old moves.now room.now }
{
    for (k, one) in moves.iter().enumerate() {
        slots[one.to as usize] = room[k];
    }
}

// A number above each slot to which a move goes.
fn end_of(moves: &[Move]) -> u64
    ensures { All (λ m. m.to < result) moves.now }
{
    let mut end = 0;
    for one in moves {
        end = end.max(u64::from(one.to) + 1);
    }
    end
}

// Whether each move goes from a slot above all to which one goes.
fn are_in_turn(moves: &[Move]) -> bool
    ensures { IsTrue result → moving.AreInTurn moves.now }
{
    let end = end_of(moves);
    moves.iter().all(|one| end <= u64::from(one.from))
}

// Does moves one after another.
fn move_in_turn<T: Copy>(moves: &[Move], slots: &mut [T])
    requires turn { moving.AreInTurn moves.now }
    requires there { moving.AreThere (length slots.old) moves.now }
    ensures { moving.AreMoved slots.old moves.now slots.new }
{
    for one in moves {
        slots[one.to as usize] = slots[one.from as usize];
    }
}

// Does moves at once.
fn move_all<T: Copy>(moves: &[Move], in_turn: bool, slots: &mut [T], room: &mut [T])
    requires turn { IsTrue in_turn → moving.AreInTurn moves.now }
    requires there { moving.AreThere (length slots.old) moves.now }
    requires room { length room.old ≡ length moves.now }
    ensures moved { moving.AreMoved slots.old moves.now slots.new }
    ensures room { length room.new ≡ length room.old }
{
    if in_turn {
        return move_in_turn(moves, slots);
    }
    read(moves, slots, room);
    write(moves, room, slots);
}

// The slots of the next nodes.
fn next_slots(
    alloc: Global,
    parts: &[RegisterPart],
    nodes: &[Slot],
) -> Result<Vec<Slot>, AllocError>
    requires { All (λ p. p.next < length nodes.now) parts.now }
    ensures { IfOk result (λ v. v.items ≡ moving.next_slots parts.now nodes.now) }
{
    let mut slots = Vec::with_capacity(alloc, parts.len())?;
    for part in parts {
        slots.push(nodes[part.next as usize])?;
    }
    Ok(slots)
}

impl Commit {
    /// A commit to these slots of the register parts, from those of their next nodes among the slots of all nodes.
    pub fn of(
        alloc: Global,
        to: &[Slot],
        parts: &[RegisterPart],
        nodes: &[Slot],
    ) -> Result<Commit, NoMemory>
        requires count { length to.now ≡ length parts.now }
        requires next { All (λ p. p.next < length nodes.now) parts.now }
        ensures { IfOk result (λ c. moving.IsCommit to.now (moving.next_slots parts.now nodes.now) c) }
    {
        let from = next_slots(alloc, parts, nodes)?;
        let moves = Moves::between(alloc, to, &from)?;
        let in_turn = are_in_turn(&moves.narrow);
        let narrow_room = vec![in alloc; 0u64; moves.narrow.len()]?;
        let wide_room = vec![in alloc; 0u128; moves.wide.len()]?;
        Ok(Commit {
            moves,
            in_turn,
            narrow_room,
            wide_room,
        })
    }

    // Does all moves at once.
    fn run(&mut self, slots: &mut SlotValues)
        requires can { moving.CanMove self.old }
        requires there { moving.IsThere (held slots.old) self.old }
        ensures slots { held slots.new ≡ moving.after_moves self.old.moves (held slots.old) }
        ensures moves { self.new.moves ≡ self.old.moves }
        ensures can { moving.CanMove self.new }
    {
        move_all(
            &self.moves.narrow,
            self.in_turn,
            &mut slots.narrow,
            &mut self.narrow_room,
        );
        move_all(
            &self.moves.wide,
            false,
            &mut slots.wide,
            &mut self.wide_room,
        );
    }
}

/// Gives each register part the value of its next node. It takes no memory.
pub fn take_next(flat: &Flat, compiled: &Compiled, commit: &mut Commit, slots: &mut SlotValues)
    requires fits { IsWellFormed flat.now }
    requires compiles { Compiles flat.now compiled.now }
    requires ready { IsReady compiled.now.plan (held slots.old) }
    requires commit { moving.IsCommitOf flat.now compiled.now commit.old }
    ensures ready { IsReady compiled.now.plan (held slots.new) }
    ensures commit { moving.IsCommitOf flat.now compiled.now commit.new }
    ensures registers { moving.register_numbers flat.now compiled.now (held slots.new)
        ≡ moving.next_numbers flat.now (numbers (held slots.old) compiled.now.nodes) }
{
    commit.run(slots);
}

/// The values of the register parts in the first cycle.
pub fn initial_values(alloc: Global, parts: &[RegisterPart]) -> Result<Vec<u128>, AllocError>
    ensures { IfOk result (λ v. v.items ≡ map (λ p. p.initial) parts.now) }
{
    Ok(parts.iter().map(|part| part.initial).collect(alloc)?)
}
