//! The simulator: a design, the slots of its program, and the words of its memories.

ghost use Rattle.std.specs.Prelude.{◌≡◌, ◌+◌, ◌-◌, ◌^◌, ◌<◌, [], length, map, drop, slice_get, slice_index};
ghost use Rattle.std.specs.Prelude.{IfOk, OnOk, OnErr, IsSome, IsSomeAnd, Some, None};
ghost use Rattle.std.specs.List.{All};
ghost use Rattle.netlist.specs.Order.{IsOrder};
ghost use Rattle.netlist.specs.Run as run;
ghost use Rattle.netlist.specs.Values.{node_values};
ghost use Rattle.step_program.specs.Values.{contents};
ghost use Rattle.net_compile.specs.Cycle.{RowFits};
ghost use Rattle.state_changes.specs.Changes.{undone};
ghost use Rattle.state_changes.specs.Log.{NotesStand};
ghost use Rattle.held_state.specs.Back as back;
ghost use Rattle.held_state.specs.Kept as kept;
ghost use Rattle.held_state.specs.States as states;
ghost use Rattle.flat_sim.specs.Stops.{has_some};

use crate::compared::note_next;
use crate::events::all_fired;
use crate::kept::{first_words, state_words, words_of};
use crate::signals::{own_value, with_driven, with_registers};
use crate::state::FlatState;
use crate::steps::Steps;
use crate::stops::{some_holds, stop_slots};
use dt_core::bits::Bits;
use dt_core::fault::NoMemory;
use held_state::commits::{Commit, initial_values, take_next};
use held_state::given::{first_slots, later_slots, put_all, read_all};
use held_state::nodes::Nodes;
use held_state::noting::note_writes;
use held_state::undoing::undo_all;
use held_state::writes::write_memories;
use message_text::telling::Fired;
use net_compile::compile;
use net_compile::compiled::Compiled;
use netlist::flat::Flat;
use netlist::laws::{settles_law, values_law};
use state_changes::changes::Change;
use state_changes::journal::Journal;
use std::alloc::Global;
use std::marker::Model;
use std::sync::ledger::Ledger;
use step_program::step::Slot;
use step_program::words::{MemoryWords, SlotValues};

/// A design that runs: its program, what stands in the program's slots, the words of all memories, how the register parts
/// take their next values, the slots of the conditions of all stops, the cycle, and whether it has settled.
#[derive(Drop)]
pub struct Sim<'a> {
    flat: &'a Flat,
    compiled: Compiled,
    slots: SlotValues,
    words: Vec<MemoryWords>,
    commit: Commit,
    stops: Vec<Slot>,
    cycle: u64,
    settled: bool,
}

impl<'a> Model for Sim<'a> {
    ghost use Rattle.flat_sim.specs.Moment.{Moment};

    ghost Value = { Moment };

    ghost use Rattle.flat_sim.specs.Inside.{moment_of, IsSound};

    ghost view = { moment_of };

    ghost invariant = { IsSound };
}

impl<'a> Sim<'a> {
    /// The design in its first cycle, 0. The order is one of its driven parts.
    pub fn start(alloc: Global, flat: &'a Flat, order: &[u32]) -> Result<Sim<'a>, NoMemory>
        requires { IsOrder flat.now order.now }
        ensures { IfOk result (λ s. s
            ≡ record { flat = flat.now; cycle = 0; state = run.flat_start flat.now; values = None }) }
    {
        let registers = initial_values(alloc, flat.registers())?;
        let words = first_words(alloc, flat.memories())?;
        Sim::with(alloc, flat, order, &registers, words, 0)
    }

    /// The design in a state of it and a cycle, which hasn't settled. The order is one of its driven parts.
    pub fn at(
        alloc: Global,
        flat: &'a Flat,
        order: &[u32],
        state: &FlatState,
        cycle: u64,
    ) -> Result<Sim<'a>, NoMemory>
        requires order { IsOrder flat.now order.now }
        requires state { states.IsStateOf flat.now state.now }
        ensures { IfOk result (λ s. s ≡ record { flat = flat.now; cycle = cycle; state = state.now; values = None }) }
    {
        let words = words_of(alloc, flat.memories(), &state.memories)?;
        Sim::with(alloc, flat, order, &state.registers, words, cycle)
    }

    // The design with these values of its register parts and these words of all its memories.
    fn with(
        alloc: Global,
        flat: &'a Flat,
        order: &[u32],
        registers: &[u128],
        words: Vec<MemoryWords>,
        cycle: u64,
    ) -> Result<Sim<'a>, NoMemory>
        requires order { IsOrder flat.now order.now }
        requires registers { states.RegistersFit flat.now.registers registers.now }
        requires words { kept.AllKept flat.now.memories words.items }
        ensures { IfOk result (λ s. s ≡ record {
          flat = flat.now;
          cycle = cycle;
          state = record {
            registers = registers.now;
            memories = kept.state_words flat.now.memories (map contents words.items);
          };
          values = None;
        }) }
    {
        let compiled = compile(alloc, flat, order)?;
        let mut slots = compiled.program().start(alloc)?;
        let parts = flat.registers();
        let given = first_slots(compiled.given(), parts.len());
        put_all(&mut slots, given, registers);
        let stops = stop_slots(alloc, flat.blocks(), compiled.nodes())?;
        let commit = Commit::of(alloc, given, parts, compiled.nodes())?;
        Ok(Sim {
            flat,
            compiled,
            slots,
            words,
            commit,
            stops,
            cycle,
            settled: false,
        })
    }

    // The values of the nodes.
    fn nodes(&self) -> Nodes<'_>
        requires { IsSome self.now.values }
        ensures flat { result.flat ≡ self.now.flat }
        ensures numbers { IsSomeAnd self.now.values (λ v. result.numbers ≡ node_values self.now.flat v) }
    {
        Nodes {
            flat: self.flat,
            slots: self.compiled.nodes(),
            values: &self.slots,
        }
    }

    /// Settles the cycle with a row, one number for each data input in the order of the ports. It counts one step and
    /// takes no memory.
    pub fn settle<L: Ledger>(&mut self, row: &[u128], steps: &mut Steps<L>)
        requires count { length row.now ≡ length self.old.flat.inputs }
        requires fits { RowFits self.old.flat row.now }
        ensures flat { self.new.flat ≡ self.old.flat }
        ensures cycle { self.new.cycle ≡ self.old.cycle }
        ensures state { self.new.state ≡ self.old.state }
        ensures values { IsSomeAnd self.new.values (run.FlatSettles self.old.flat self.old.state row.now) }
        ensures steps { steps.new ≡ steps.old + 1 }
    {
        steps.tick();
        self.settle_row(row);
    }

    // Settles the cycle with a row.
    fn settle_row(&mut self, row: &[u128])
        requires count { length row.now ≡ length self.old.flat.inputs }
        requires fits { RowFits self.old.flat row.now }
        ensures flat { self.new.flat ≡ self.old.flat }
        ensures cycle { self.new.cycle ≡ self.old.cycle }
        ensures state { self.new.state ≡ self.old.state }
        ensures values { IsSomeAnd self.new.values (run.FlatSettles self.old.flat self.old.state row.now) }
    {
        settles_law();
        values_law();
        let inputs = later_slots(self.compiled.given(), self.flat.registers().len());
        put_all(&mut self.slots, inputs, row);
        self.compiled.program().run(&self.words, &mut self.slots);
        self.settled = true;
    }

    /// Whether an assertion fires. It takes no memory.
    pub fn fires(&self) -> bool
        requires { IsSome self.now.values }
        ensures { IsSomeAnd self.now.values (λ v. result ≡ has_some (run.flat_fired self.now.flat v)) }
    {
        some_holds(&self.slots, &self.stops)
    }

    /// The assertions that fire, in order, with their messages.
    pub fn fired(&self, alloc: Global) -> Result<Vec<Fired>, NoMemory>
        requires { IsSome self.now.values }
        ensures { IfOk result (λ fired. IsSomeAnd self.now.values
            (λ v. fired.items ≡ run.flat_fired self.now.flat v)) }
    {
        all_fired(alloc, &self.nodes())
    }

    /// The value of a signal. It takes no memory.
    pub fn value(&self, signal: u32) -> Bits
        requires settled { IsSome self.now.values }
        requires signal { signal < length self.now.flat.signals }
        ensures width { IsSomeAnd (slice_get self.now.flat.signals signal) (λ x. result.width ≡ x.width) }
        ensures value { IsSomeAnd self.now.values (λ v. result.value ≡ slice_index v.signals signal) }
    {
        let parts = self.flat.registers();
        let given = first_slots(self.compiled.given(), parts.len());
        let inputs = later_slots(self.compiled.given(), parts.len());
        let own = own_value(&self.flat.signals()[signal as usize], inputs, &self.slots);
        let value = with_registers(own, signal, parts, given, &self.slots);
        with_driven(value, signal, self.flat.driven(), &self.nodes())
    }

    /// To the next cycle and its state. It takes no memory.
    pub fn advance(&mut self)
        requires settled { IsSome self.old.values }
        requires cycle { self.old.cycle < 2 ^ 64 - 1 }
        ensures flat { self.new.flat ≡ self.old.flat }
        ensures cycle { self.new.cycle ≡ self.old.cycle + 1 }
        ensures state { IsSomeAnd self.old.values
            (λ v. self.new.state ≡ run.flat_next self.old.flat self.old.state v) }
        ensures values { self.new.values ≡ None }
    {
        let nodes = Nodes {
            flat: self.flat,
            slots: self.compiled.nodes(),
            values: &self.slots,
        };
        write_memories(&nodes, &mut self.words);
        take_next(self.flat, &self.compiled, &mut self.commit, &mut self.slots);
        self.settled = false;
        self.cycle += 1;
    }

    /// To the next cycle and its state, as `advance`. Each register part and each word that takes another value is noted
    /// with its old one, and the journal's cycle is closed. Where there is no memory for the notes all is as it was.
    pub fn note_and_advance(&mut self, journal: &mut Journal<Change>) -> Result<(), NoMemory>
        requires settled { IsSome self.old.values }
        requires cycle { self.old.cycle < 2 ^ 64 - 1 }
        requires fresh { journal.old.fresh ≡ [] }
        ensures flat { self.new.flat ≡ self.old.flat }
        ensures cycle { OnOk result (self.new.cycle ≡ self.old.cycle + 1) }
        ensures state { OnOk result (IsSomeAnd self.old.values
            (λ v. self.new.state ≡ run.flat_next self.old.flat self.old.state v)) }
        ensures values { OnOk result (self.new.values ≡ None) }
        ensures noted { OnOk result (back.Notes self.old.flat self.old.state self.new.state
            journal.old.most journal.old.cycles journal.new.cycles) }
        ensures fresh { journal.new.fresh ≡ [] }
        ensures most { journal.new.most ≡ journal.old.most }
        ensures same { OnErr result (self.new ≡ self.old) }
        ensures stand { OnErr result (NotesStand journal.old journal.new) }
    {
        journal.reserve(self.flat.registers().len() + self.flat.writes().len())?;
        let nodes = Nodes {
            flat: self.flat,
            slots: self.compiled.nodes(),
            values: &self.slots,
        };
        note_writes(&nodes, &mut self.words, journal);
        note_next(
            self.flat,
            &nodes,
            &self.compiled,
            &self.commit,
            &self.slots,
            journal,
        );
        journal.close();
        take_next(self.flat, &self.compiled, &mut self.commit, &mut self.slots);
        self.settled = false;
        self.cycle += 1;
        Ok(())
    }

    /// To the cycle before and its state: what the newest cycle of the journal notes is undone, and forgotten. It takes
    /// no memory.
    pub fn go_back(&mut self, journal: &mut Journal<Change>)
        requires cycle { 0 < self.old.cycle }
        requires fresh { journal.old.fresh ≡ [] }
        requires some { 0 < length journal.old.cycles }
        requires fit { All (back.ChangeFits self.old.flat) (back.newest journal.old.cycles) }
        ensures flat { self.new.flat ≡ self.old.flat }
        ensures cycle { self.new.cycle + 1 ≡ self.old.cycle }
        ensures state { self.new.state ≡ undone (back.newest journal.old.cycles) self.old.state }
        ensures values { self.new.values ≡ None }
        ensures cycles { journal.new.cycles ≡ drop 1 journal.old.cycles }
        ensures fresh { journal.new.fresh ≡ [] }
        ensures most { journal.new.most ≡ journal.old.most }
    {
        journal.reopen();
        undo_all(
            self.flat,
            &self.compiled,
            journal,
            &mut self.words,
            &mut self.slots,
        );
        self.settled = false;
        self.cycle -= 1;
    }

    /// The design that runs.
    pub fn flat(&self) -> &'a Flat
        ensures { result.now ≡ self.now.flat }
    {
        self.flat
    }

    /// The cycle, from 0.
    pub fn cycle(&self) -> u64
        ensures { result ≡ self.now.cycle }
    {
        self.cycle
    }

    /// The state of the cycle.
    pub fn state(&self, alloc: Global) -> Result<FlatState, NoMemory>
        ensures { IfOk result (λ s. s ≡ self.now.state) }
    {
        let given = first_slots(self.compiled.given(), self.flat.registers().len());
        Ok(FlatState {
            registers: read_all(alloc, &self.slots, given)?,
            memories: state_words(alloc, self.flat.memories(), &self.words)?,
        })
    }
}
