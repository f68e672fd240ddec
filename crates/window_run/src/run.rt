//! A run over rows as they come: the first failure, and what its window needs.

ghost use Rattle.std.specs.Prelude.{◌≡◌, ◌<◌, ◌≤◌, ◌^◌, ◌+◌, ◌-◌, ◌++◌, ◌∷◌, [], ℕ, List, length};
ghost use Rattle.std.specs.Prelude.{IfOk, OnOk, IsSome, IsSomeAnd, MatchOption, Some, None};
ghost use Rattle.std.specs.List.{All, sum};
ghost use Rattle.netlist.specs.Design as design;
ghost use Rattle.netlist.specs.Fits.{IsWellFormed};
ghost use Rattle.netlist.specs.Order.{IsOrder};
ghost use Rattle.net_compile.specs.Cycle.{RowFits, input_widths};
ghost use Rattle.packed_rows.specs.Kept.{last_ones};
ghost use Rattle.window_run.specs.Ran.{RanTo};
ghost use Rattle.window_run.specs.Window as window;
ghost use Rattle.window_run.specs.Calls.Taken.{Takes};

use crate::failure::Failure;
use crate::replay::{go_back, replay};
use dt_core::fault::NoMemory;
use dt_core::limits::{MAX_LAG, MAX_WIDTH};
use dt_io::outside::Sink;
use flat_sim::sim::Sim;
use flat_sim::steps::Steps;
use netlist::flat::Flat;
use packed_rows::last::LastRows;
use state_changes::changes::Change;
use state_changes::journal::Journal;
use std::alloc::{AllocError, Global};
use std::marker::Model;
use std::sync::ledger::Ledger;
use waveform::fault::VcdFault;

/// A run of a design over the rows that were taken so far: the simulator, what its last cycles changed, the last rows, for
/// how many cycles before a failure's they are kept, how many rows were taken, and the first failure.
#[derive(Drop)]
pub struct Run<'a> {
    sim: Sim<'a>,
    journal: Journal<Change>,
    last: LastRows,
    lag: u32,
    cycles: u64,
    failure: Option<Failure>,
}

impl<'a> Model for Run<'a> {
    ghost use Rattle.window_run.specs.Progress.{Progress};

    ghost Value = { Progress };

    ghost use Rattle.window_run.specs.Calls.Inside.{progress_of, IsSound};

    ghost view = { progress_of };

    ghost invariant = { IsSound };
}

impl<'a> Run<'a> {
    /// The run over no row yet. The order is one of the design's driven parts; a window has `lag` cycles before that of
    /// the failure. It takes memory for the rows of a window.
    pub fn start(
        alloc: Global,
        flat: &'a Flat,
        order: &[u32],
        lag: u32,
    ) -> Result<Run<'a>, NoMemory>
        requires order { IsOrder flat.now order.now }
        requires lag { lag ≤ MAX_LAG }
        ensures ran { IfOk result (λ r. RanTo flat.now order.now [] r) }
        ensures flat { IfOk result (λ r. r.flat ≡ flat.now) }
        ensures lag { IfOk result (λ r. r.lag ≡ lag) }
    {
        let sim = Sim::start(alloc, flat, order)?;
        let widths = widths_of(alloc, flat)?;
        let last = LastRows::new(alloc, widths, lag + 1)?;
        let journal = Journal::new(alloc, lag + 1)?;
        Ok(Run {
            sim,
            journal,
            last,
            lag,
            cycles: 0,
            failure: None,
        })
    }

    /// Goes on over one row more, a number below 2^width for each data input in the order of the ports. After the first
    /// failure nothing is computed, and nothing more is kept.
    pub fn take<L: Ledger>(
        &mut self,
        alloc: Global,
        row: &[u128],
        steps: &mut Steps<L>,
    ) -> Result<(), NoMemory>
        requires count { length row.now ≡ length self.old.flat.inputs }
        requires fits { RowFits self.old.flat row.now }
        requires room { self.old.cycles < 2 ^ 64 - 1 }
        ensures ran { OnOk result ((flat : design.Flat) (order : List ℕ) (rows : List (List ℕ))
            → RanTo flat order rows self.old → RanTo flat order (rows ++ row.now ∷ []) self.new) }
        ensures flat { self.new.flat ≡ self.old.flat }
        ensures lag { self.new.lag ≡ self.old.lag }
        ensures rests { IsSome self.old.failure → steps.new ≡ steps.old }
        ensures steps { steps.new ≤ steps.old + 1 }
    {
        self.cycles += 1;
        if self.failure.is_some() {
            return Ok(());
        }
        self.last.push(row);
        match step(alloc, &mut self.sim, &mut self.journal, row, steps)? {
            Some(failure) => {
                self.failure = Some(failure);
                Ok(())
            }
            None => Ok(()),
        }
    }

    /// How many rows were taken.
    pub fn cycles(&self) -> u64
        ensures { result ≡ self.now.cycles }
    {
        self.cycles
    }

    /// The design.
    pub fn flat(&self) -> &'a Flat
        ensures { result.now ≡ self.now.flat }
    {
        self.sim.flat()
    }

    /// The first failure, if there was one.
    pub fn failure(&self) -> Option<&Failure>
        ensures { MatchOption result (self.now.failure ≡ None) (λ f. self.now.failure ≡ Some f.now) }
    {
        self.failure.as_ref()
    }

    /// Writes the waveform of the failure's window: from `lag` cycles before it on, or from the first cycle, up to the
    /// failure's. It goes back to the window's first cycle, and runs the last rows again, with one step for each. After
    /// it the run takes no more rows.
    pub fn write_window<K: Sink, L: Ledger>(
        &mut self,
        alloc: Global,
        out: &mut K,
        steps: &mut Steps<L>,
    ) -> Result<(), VcdFault>
        requires failed { IsSome self.old.failure }
        requires ran { (order : List ℕ) × (rows : List (List ℕ)) × RanTo self.old.flat order rows self.old }
        ensures waves { (flat : design.Flat) (order : List ℕ) (rows : List (List ℕ)) → RanTo flat order rows self.old
            → IsSomeAnd self.old.failure (λ x. window.Waves
            (K.held out.old) (K.held out.new) (K.faults out.old) (K.faults out.new)
            (window.window_text flat order rows self.old.lag x.cycle) result) }
        ensures steps { IsSomeAnd self.old.failure (λ x.
            steps.new ≤ steps.old + window.window_length self.old.lag x.cycle) }
        ensures flat { self.new.flat ≡ self.old.flat }
        ensures cycles { self.new.cycles ≡ self.old.cycles }
        ensures failure { self.new.failure ≡ self.old.failure }
    {
        go_back(&mut self.sim, &mut self.journal, self.last.count() - 1);
        replay(alloc, &mut self.sim, &self.last, out, steps)
    }
}

// The widths of the data inputs, in the order of the ports.
fn widths_of(alloc: Global, flat: &Flat) -> Result<Vec<u32>, AllocError>
    ensures fits { IsWellFormed flat.now }
    ensures widths { IfOk result (λ v. v.items ≡ input_widths flat.now.signals flat.now.inputs) }
    ensures wide { IfOk result (λ v. All (λ w. w ≤ MAX_WIDTH) v.items) }
    ensures few { IfOk result (λ v. sum v.items ≤ u32.MAX) }
{
    let signals = flat.signals();
    let mut widths = Vec::new(alloc);
    for number in flat.inputs() {
        widths.push(signals[*number as usize].width)?;
    }
    Ok(widths)
}

// Runs one cycle: to the next one where nothing fires, else to the failure.
fn step<L: Ledger>(
    alloc: Global,
    sim: &mut Sim<'_>,
    journal: &mut Journal<Change>,
    row: &[u128],
    steps: &mut Steps<L>,
) -> Result<Option<Failure>, NoMemory>
    requires count { length row.now ≡ length sim.old.flat.inputs }
    requires fits { RowFits sim.old.flat row.now }
    requires room { sim.old.cycle < 2 ^ 64 - 1 }
    requires closed { journal.old.fresh ≡ [] }
    ensures takes { IfOk result (Takes row.now sim.old sim.new journal.old journal.new) }
    ensures flat { sim.new.flat ≡ sim.old.flat }
    ensures cycle { sim.new.cycle ≤ sim.old.cycle + 1 }
    ensures closed { journal.new.fresh ≡ [] }
    ensures most { journal.new.most ≡ journal.old.most }
    ensures steps { steps.new ≡ steps.old + 1 }
{
    sim.settle(row, steps);
    if sim.fires() {
        let fired = sim.fired(alloc)?;
        return Ok(Some(Failure {
            cycle: sim.cycle(),
            fired,
        }));
    }
    sim.note_and_advance(journal)?;
    Ok(None)
}
