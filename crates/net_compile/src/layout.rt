//! The given slots of a design's program, and the ranges of its parts.

ghost use Rattle.std.specs.Prelude.{◌≡◌, ℕ, ◌+◌, List, [], ◌∷◌, ◌++◌, map, IfOk, OnOk};
ghost use Rattle.netlist.specs.Design.{Flat};
ghost use Rattle.net_compile.specs.Cycle as cycle;
ghost use Rattle.net_compile.specs.Pieces as pieces;

use netlist::design::{DrivenPart, Range, RegisterPart, Signal};
use netlist::flat::Flat;
use std::alloc::{AllocError, Global};
use step_program::step::Slot;

/// Slots that are given: how many of each kind, and which.
#[derive(Drop)]
pub(crate) struct Given {
    pub(crate) narrow: u32,
    pub(crate) wide: u32,
    pub(crate) slots: Vec<Slot>,
}

/// The given slots of a design, and the ranges of its driven parts and of its register parts, in their order.
#[derive(Drop)]
pub(crate) struct Layout {
    pub(crate) given: Given,
    pub(crate) driven: Vec<Range>,
    pub(crate) registers: Vec<Range>,
}

// One more; none beyond 2^32.
fn one_more(count: u32) -> Result<u32, AllocError>
    ensures { IfOk result (λ n. n ≡ count + 1) }
{
    match count.checked_add(1) {
        Some(more) => Ok(more),
        None => Err(AllocError),
    }
}

impl Given {
    // Adds a slot for a number of this width.
    fn add(&mut self, width: u32) -> Result<(), AllocError>
        ensures { OnOk result ((ws : List ℕ) → cycle.HasSlots ws (pieces.front_of self.old)
            → cycle.HasSlots (ws ++ width ∷ []) (pieces.front_of self.new)) }
    {
        if width <= 64 {
            self.slots.push(Slot::Narrow(self.narrow))?;
            self.narrow = one_more(self.narrow)?;
        } else {
            self.slots.push(Slot::Wide(self.wide))?;
            self.wide = one_more(self.wide)?;
        }
        Ok(())
    }

    // A slot for each of these widths.
    fn of(alloc: Global, widths: &[u32]) -> Result<Given, AllocError>
        ensures { IfOk result (λ given. cycle.HasSlots widths.now (pieces.front_of given)) }
    {
        let mut given = Given {
            narrow: 0,
            wide: 0,
            slots: Vec::new(alloc),
        };
        for width in widths {
            given.add(*width)?;
        }
        Ok(given)
    }
}

// The width of a signal; 0 where there is none.
fn signal_width(signals: &[Signal], signal: u32) -> u32
    ensures { result ≡ cycle.signal_width signals.now signal }
{
    match signals.get(signal as usize) {
        Some(signal) => signal.width,
        None => 0,
    }
}

// The widths of the register parts.
fn register_widths(alloc: Global, parts: &[RegisterPart]) -> Result<Vec<u32>, AllocError>
    ensures { IfOk result (λ v. v.items ≡ cycle.register_widths parts.now) }
{
    Ok(parts.iter().map(|part| part.range.width).collect(alloc)?)
}

// The widths of the register parts, then those of the data inputs.
fn given_widths(alloc: Global, flat: &Flat) -> Result<Vec<u32>, AllocError>
    ensures { IfOk result (λ v. v.items ≡ cycle.given_widths flat.now) }
{
    let mut widths = register_widths(alloc, flat.registers())?;
    for input in flat.inputs() {
        widths.push(signal_width(flat.signals(), *input))?;
    }
    Ok(widths)
}

// The ranges of the driven parts.
fn driven_ranges(alloc: Global, parts: &[DrivenPart]) -> Result<Vec<Range>, AllocError>
    ensures { IfOk result (λ v. v.items ≡ map (λ p. p.range) parts.now) }
{
    Ok(parts.iter().map(|part| part.range).collect(alloc)?)
}

// The ranges of the register parts.
fn register_ranges(alloc: Global, parts: &[RegisterPart]) -> Result<Vec<Range>, AllocError>
    ensures { IfOk result (λ v. v.items ≡ map (λ p. p.range) parts.now) }
{
    Ok(parts.iter().map(|part| part.range).collect(alloc)?)
}

impl Layout {
    /// The layout of a design.
    pub(crate) fn of(alloc: Global, flat: &Flat) -> Result<Layout, AllocError>
        ensures { IfOk result (λ l. pieces.IsLaidOut flat.now l) }
    {
        let widths = given_widths(alloc, flat)?;
        let given = Given::of(alloc, &widths)?;
        let driven = driven_ranges(alloc, flat.driven())?;
        let registers = register_ranges(alloc, flat.registers())?;
        Ok(Layout {
            given,
            driven,
            registers,
        })
    }
}
