//! Going back over the last cycles of a run, and running them again for their waveform.

ghost use Rattle.std.specs.Prelude.{◌≡◌, ◌≢◌, ◌≤◌, ◌<◌, ◌+◌, ◌-◌, ◌^◌, [], ℕ, List, Option, length, map};
ghost use Rattle.std.specs.Prelude.{slice_index, slice_index_or, IsTrue, IsSome, IsSomeAnd, IfOk, OnOk};
ghost use Rattle.std.specs.List.{All};
ghost use Rattle.netlist.specs.Design as design;
ghost use Rattle.netlist.specs.Run.{State};
ghost use Rattle.net_compile.specs.Cycle.{input_widths};
ghost use Rattle.design_names.specs.Shown.{flat_scope};
ghost use Rattle.waveform.specs.Vcd.{vcd_text};
ghost use Rattle.waveform.specs.Writer.{HasWritten};
ghost use Rattle.waveform.specs.Writes.{WritesText};
ghost use Rattle.waveform.specs.declared.progress.Progress.TheVariants as progress;
ghost use Rattle.window_run.specs.Window.{wave_of, Waves};
ghost use Rattle.window_run.specs.Calls.Again as again;

use dt_core::fault::NoMemory;
use dt_io::outside::Sink;
use flat_sim::sim::Sim;
use flat_sim::steps::Steps;
use netlist::flat::Flat;
use packed_rows::last::LastRows;
use state_changes::changes::Change;
use state_changes::journal::Journal;
use std::alloc::Global;
use std::marker::Model;
use std::sync::ledger::Ledger;
use waveform::fault::VcdFault;
use waveform::writer::VcdWriter;

/// Goes back over so many cycles, by undoing what was noted in them, the newest first.
pub(crate) fn go_back(sim: &mut Sim<'_>, journal: &mut Journal<Change>, count: u32)
    requires closed { journal.old.fresh ≡ [] }
    requires noted { count ≤ length journal.old.cycles }
    requires come { (states : ℕ → State) × again.HasCome states sim.old journal.old }
    ensures come { (states : ℕ → State) → again.HasCome states sim.old journal.old
        → sim.new.state ≡ states (sim.old.cycle - count) }
    ensures cycle { sim.new.cycle + count ≡ sim.old.cycle }
    ensures flat { sim.new.flat ≡ sim.old.flat }
    ensures closed { journal.new.fresh ≡ [] }
    ensures most { journal.new.most ≡ journal.old.most }
{
    for _ in 0..count {
        sim.go_back(journal);
    }
}

/// Runs the rows again, the first one in the simulator's cycle, and writes the waveform of their cycles.
pub(crate) fn replay<K: Sink, L: Ledger>(
    alloc: Global,
    sim: &mut Sim<'_>,
    rows: &LastRows,
    out: &mut K,
    steps: &mut Steps<L>,
) -> Result<(), VcdFault>
    requires widths { rows.now.widths ≡ input_widths sim.old.flat.signals sim.old.flat.inputs }
    requires room { sim.old.cycle + length rows.now.rows < 2 ^ 64 }
    ensures waves { (f : design.Flat) (order : List ℕ) (all : List (List ℕ)) (first : ℕ)
        → again.StandsAt f order all first sim.old → again.AreFrom all first rows.now.rows
        → Waves (K.held out.old) (K.held out.new) (K.faults out.old) (K.faults out.new)
        (wave_of f order all first (length rows.now.rows)) result }
    ensures steps { steps.new ≤ steps.old + length rows.now.rows }
    ensures cycle { sim.new.cycle ≤ sim.old.cycle + length rows.now.rows }
    ensures flat { sim.new.flat ≡ sim.old.flat }
{
    let Ok(mut screen) = Screen::new(alloc, sim.flat()) else {
        return Err(VcdFault::Memory);
    };
    screen.header(out)?;
    for number in 0..rows.count() {
        screen.cycle(sim, rows, number, out, steps)?;
    }
    Ok(())
}

// A writer of the waveform, with room for a row and for what a cycle shows.
#[derive(Drop)]
struct Screen<'a> {
    writer: VcdWriter<'a>,
    row: Vec<u128>,
    values: Vec<u128>,
}

impl<'a> Model for Screen<'a> {
    ghost use Rattle.std.specs.Prelude.{◌≡◌, length};
    ghost use Rattle.design_names.specs.Shown.{flat_order};
    ghost use Rattle.waveform.specs.Writer.{Writer};

    ghost Value = { Writer };

    ghost view = { λ s. s.writer };

    ghost invariant = { λ s. (length s.row.items ≡ length s.writer.design.inputs)
        × (length s.values.items ≡ length (flat_order s.writer.design)) };
}

impl<'a> Screen<'a> {
    // One that has written nothing yet.
    fn new(alloc: Global, flat: &'a Flat) -> Result<Screen<'a>, NoMemory>
        ensures { IfOk result (λ s. (s.design ≡ flat.now) × IsTrue s.live × (s.written ≡ progress.Nothing)) }
    {
        let writer = VcdWriter::new(alloc, flat)?;
        let row = vec![in alloc; 0u128; flat.inputs().len()]?;
        let values = vec![in alloc; 0u128; writer.shown().len()]?;
        Ok(Screen {
            writer,
            row,
            values,
        })
    }

    // Writes the header.
    fn header<K: Sink>(&mut self, out: &mut K) -> Result<(), VcdFault>
        requires live { IsTrue self.old.live }
        requires nothing { self.old.written ≡ progress.Nothing }
        ensures text { (first : ℕ) → WritesText (K.held out.old) (K.held out.new) (K.faults out.old) (K.faults out.new)
            (vcd_text (flat_scope self.old.design) first []) result }
        ensures written { OnOk result (HasWritten self.new []) }
        ensures begun { OnOk result (self.new.written ≢ progress.Nothing) }
        ensures live { OnOk result (IsTrue self.new.live) }
        ensures design { self.new.design ≡ self.old.design }
    {
        self.writer.header(out)
    }

    // Runs the row of a number again, writes its cycle, and goes on to the next one.
    fn cycle<K: Sink, L: Ledger>(
        &mut self,
        sim: &mut Sim<'_>,
        rows: &LastRows,
        number: u32,
        out: &mut K,
        steps: &mut Steps<L>,
    ) -> Result<(), VcdFault>
        requires design { self.old.design ≡ sim.old.flat }
        requires widths { rows.now.widths ≡ input_widths sim.old.flat.signals sim.old.flat.inputs }
        requires row { number < length rows.now.rows }
        requires room { sim.old.cycle < 2 ^ 64 - 1 }
        requires live { IsTrue self.old.live }
        requires begun { self.old.written ≢ progress.Nothing }
        ensures goes { (f : design.Flat) (order : List ℕ) (all : List (List ℕ)) (first n : ℕ) (held : Option (List ℕ)) (count : ℕ)
            → again.HasWaved f order all first n held (K.held out.old) count (K.faults out.old) sim.old self.old
            → slice_index_or rows.now.rows number [] ≡ slice_index_or all (first + n) []
            → again.Goes f order all first (n + 1) held (K.held out.new) count (K.faults out.new) sim.new self.new
            result }
        ensures steps { steps.new ≡ steps.old + 1 }
        ensures cycle { sim.new.cycle ≤ sim.old.cycle + 1 }
        ensures flat { sim.new.flat ≡ sim.old.flat }
        ensures design { self.new.design ≡ self.old.design }
        ensures live { OnOk result (IsTrue self.new.live) }
        ensures begun { OnOk result (self.new.written ≢ progress.Nothing) }
    {
        rows.read(number, &mut self.row);
        sim.settle(&self.row, steps);
        show(sim, self.writer.shown(), &mut self.values);
        self.writer.cycle(out, sim.cycle(), &self.values)?;
        sim.advance();
        Ok(())
    }
}

// The values of these signals.
fn show(sim: &Sim, shown: &[u32], values: &mut [u128])
    requires settled { IsSome sim.now.values }
    requires there { All (λ k. k < length sim.now.flat.signals) shown.now }
    requires room { length values.old ≡ length shown.now }
    ensures { IsSomeAnd sim.now.values (λ v. values.new ≡ map (slice_index v.signals) shown.now) }
{
    for (k, signal) in shown.iter().enumerate() {
        values[k] = sim.value(*signal).value();
    }
}
