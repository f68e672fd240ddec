//! What is known of a design's names.

ghost use Rattle.std.specs.Prelude.{◌≡◌, ◌++◌, ◌∷◌, [], IfOk, OnOk};
ghost use Rattle.design_names.specs.Named.{names_of};
ghost use Rattle.design_names.specs.Outline.{entry_signals, entry_signal};

use crate::append::push;
use crate::outline::Entry;
use crate::stops::{Stop, list_stops};
use crate::walk::outline_of;
use dt_core::fault::NoMemory;
use netlist::flat::Flat;
use std::alloc::Global;
use std::marker::Model;

/// The outline of a design, its shown signals in order of the waveform, and its assertions by number.
#[derive(Drop)]
pub struct Names {
    outline: Vec<Entry>,
    shown: Vec<u32>,
    stops: Vec<Stop>,
}

impl Model for Names {
    ghost use Rattle.design_names.specs.Named.{Named};

    ghost Value = { Named };

    ghost view = { λ n. record { outline = n.outline.items; shown = n.shown.items; stops = n.stops.items } };
}

impl Names {
    /// The names of a design, in time linear in its scopes, signals and events.
    pub fn new(alloc: Global, flat: &Flat) -> Result<Names, NoMemory>
        ensures { IfOk result (λ names. names ≡ names_of flat.now) }
    {
        let outline = outline_of(alloc, flat)?;
        let shown = signals_of(alloc, &outline)?;
        let stops = list_stops(alloc, flat.blocks())?;
        Ok(Names {
            outline,
            shown,
            stops,
        })
    }

    /// The scopes and signals, as the header of a waveform has them.
    pub fn outline(&self) -> &[Entry]
        ensures { result.now ≡ self.now.outline }
    {
        &self.outline
    }

    /// The shown signals by number, in order of the waveform.
    pub fn shown(&self) -> &[u32]
        ensures { result.now ≡ self.now.shown }
    {
        &self.shown
    }

    /// The assertions, in order of number.
    pub fn stops(&self) -> &[Stop]
        ensures { result.now ≡ self.now.stops }
    {
        &self.stops
    }
}

// The signals of an outline.
fn signals_of(alloc: Global, outline: &[Entry]) -> Result<Vec<u32>, NoMemory>
    ensures { IfOk result (λ signals. signals.items ≡ entry_signals outline.now) }
{
    let mut signals = Vec::new(alloc);
    for entry in outline {
        push_signal(&mut signals, *entry)?;
    }
    Ok(signals)
}

// Appends the signal of an entry, if it has one.
fn push_signal(signals: &mut Vec<u32>, entry: Entry) -> Result<(), NoMemory>
    ensures { OnOk result (signals.new.items ≡ signals.old.items ++ entry_signal entry) }
{
    match entry {
        Entry::Signal(number) => push(signals, number),
        Entry::Scope(_) | Entry::End => Ok(()),
    }
}
