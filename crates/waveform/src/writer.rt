//! The writer of a waveform.

ghost use Rattle.std.specs.Prelude.{◌≡◌, ◌≢◌, ◌≤◌, ◌↔◌, ◌+◌, ◌++◌, ◌∷◌, [], List, ℕ, IsTrue, IsOk, OnOk, IfOk, length};
ghost use Rattle.design_names.specs.Shown.{flat_scope, flat_order};
ghost use Rattle.waveform.specs.Vcd.{vcd_text};
ghost use Rattle.waveform.specs.Writer.{HasWritten};
ghost use Rattle.waveform.specs.Writes.{WritesText, WritesCycle};
ghost use Rattle.waveform.specs.declared.progress.Progress.TheVariants as progress;

use crate::cycle::push_cycle;
use crate::fault::VcdFault;
use crate::form::{Form, forms_of};
use crate::header::push_header;
use crate::progress::Progress;
use design_names::names::Names;
use dt_core::fault::NoMemory;
use dt_io::outside::{Sink, write_all};
use netlist::flat::Flat;
use std::alloc::Global;
use std::marker::Model;

/// A writer of the waveform of one design: its names, the widths of its variables, what was written, the values of the
/// last cycle that was written, one number per variable, and room for the text of one cycle.
#[derive(Drop)]
pub struct VcdWriter<'a> {
    flat: &'a Flat,
    names: Names,
    forms: Vec<Form>,
    live: bool,
    written: Progress,
    last: Vec<u128>,
    text: Vec<u8>,
}

impl<'a> Model for VcdWriter<'a> {
    ghost use Rattle.waveform.specs.Writer.{Writer, Holds};

    ghost Value = { Writer };

    ghost view = { λ w. record { design = w.flat.now; live = w.live; written = w.written; last = w.last.items } };

    ghost invariant = { λ w. Holds w.flat.now w.names w.forms.items w.last.items };
}

impl<'a> VcdWriter<'a> {
    /// A writer for a design, with memory for one valuation.
    pub fn new(alloc: Global, flat: &'a Flat) -> Result<VcdWriter<'a>, NoMemory>
        ensures { IfOk result (λ w. (w.design ≡ flat.now) × IsTrue w.live × (w.written ≡ progress.Nothing)) }
    {
        let names = Names::new(alloc, flat)?;
        let forms = forms_of(alloc, flat.signals(), names.shown())?;
        let last = vec![in alloc; 0u128; forms.len()]?;
        Ok(VcdWriter {
            flat,
            names,
            forms,
            live: true,
            written: Progress::Nothing,
            last,
            text: Vec::new(alloc),
        })
    }

    /// The shown signals by number, in the order in which `cycle` takes their values.
    pub fn shown(&self) -> &[u32]
        ensures { result.now ≡ flat_order self.now.design }
    {
        self.names.shown()
    }

    /// Whether it may be asked for more: not after a refusal.
    pub fn live(&self) -> bool
        ensures { result ≡ self.now.live }
    {
        self.live
    }

    /// Writes the header. After a refusal a front of it was written.
    pub fn header<K: Sink>(&mut self, out: &mut K) -> Result<(), VcdFault>
        requires live { IsTrue self.old.live }
        requires nothing { self.old.written ≡ progress.Nothing }
        ensures text { (first : ℕ) → WritesText (K.held out.old) (K.held out.new) (K.faults out.old) (K.faults out.new)
            (vcd_text (flat_scope self.old.design) first []) result }
        ensures written { OnOk result (HasWritten self.new []) }
        ensures begun { OnOk result (self.new.written ≢ progress.Nothing) }
        ensures later { K.faults out.old ≤ K.faults out.new }
        ensures live { IsTrue self.new.live ↔ IsOk result }
        ensures design { self.new.design ≡ self.old.design }
    {
        self.live = false;
        self.text.clear();
        if let Err(_) = push_header(&mut self.text, self.flat, self.names.outline()) {
            return Err(VcdFault::Memory);
        }
        if let Err(_) = write_all(out, &self.text) {
            return Err(VcdFault::Write);
        }
        self.written = Progress::Header;
        self.live = true;
        Ok(())
    }

    /// Writes the lines of a cycle in which the variables have these values, one for each signal of `shown`, in that
    /// order, each below 2^width, a clock 0: the first cycle, or the one after the last cycle that was written. After a
    /// refusal a front of them was written.
    pub fn cycle<K: Sink>(
        &mut self,
        out: &mut K,
        cycle: u64,
        values: &[u128],
    ) -> Result<(), VcdFault>
        requires live { IsTrue self.old.live }
        requires begun { self.old.written ≢ progress.Nothing }
        requires values { length values.now ≡ length (flat_order self.old.design) }
        ensures text { (first : ℕ) (cycles : List (List ℕ))
            → HasWritten self.old cycles → cycle ≡ first + length cycles
            → WritesCycle (flat_scope self.old.design) first cycles values.now
            (K.held out.old) (K.held out.new) (K.faults out.old) (K.faults out.new) result }
        ensures begun { OnOk result (self.new.written ≢ progress.Nothing) }
        ensures later { K.faults out.old ≤ K.faults out.new }
        ensures written { OnOk result ((cycles : List (List ℕ)) → HasWritten self.old cycles
            → HasWritten self.new (cycles ++ values.now ∷ [])) }
        ensures live { IsTrue self.new.live ↔ IsOk result }
        ensures design { self.new.design ≡ self.old.design }
    {
        self.live = false;
        self.text.clear();
        if let Err(_) = push_cycle(
            &mut self.text,
            &self.forms,
            cycle,
            self.written,
            &self.last,
            values,
        ) {
            return Err(VcdFault::Memory);
        }
        if let Err(_) = write_all(out, &self.text) {
            return Err(VcdFault::Write);
        }
        self.last.copy_from_slice(values);
        self.written = Progress::Cycles;
        self.live = true;
        Ok(())
    }
}
