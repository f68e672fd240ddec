//! Programs as they are put together: constants first, then steps in runs of one kind.

ghost use Rattle.std.specs.Prelude.{◌≡◌, ℕ, ◌<◌, ◌≤◌, ◌++◌, ◌∷◌, IfOk, OnOk, IfSome};
ghost use Rattle.step_program.specs.Draft.{Draft};
ghost use Rattle.step_program.specs.Plan as plan;
ghost use Rattle.step_program.specs.Renamed as names;
ghost use Rattle.step_program.specs.Running as running;
ghost use Rattle.step_program.specs.Arranging as arranging;

use crate::entry::Entry;
use crate::grow::add;
use crate::numbers::Numbers;
use crate::operands::are_set;
use crate::placement::Placement;
use crate::program::Program;
use crate::rename::renamed;
use crate::runs::{Counts, Run};
use crate::schedule;
use crate::step::{Calculation, Slot, Step};
use std::alloc::{AllocError, Global};

/// A program, and where it has the slots of the builder that it came from.
#[derive(Drop)]
pub struct Closed {
    pub program: Program,
    pub placement: Placement,
}

/// A program that is put together: how many slots of each kind are given and how many there are, its constants and its
/// runs, and where it has the builder's slots.
#[derive(Drop)]
pub(crate) struct Arranger {
    pub given: Numbers,
    pub next: Numbers,
    pub narrow_constants: Vec<u64>,
    pub wide_constants: Vec<u128>,
    pub runs: Vec<Run>,
    pub placement: Placement,
}

// A constant's width and value.
#[derive(Clone, Copy)]
struct Constant {
    width: u32,
    value: u128,
}

// The constant that a step is, if it is one.
fn constant_of(step: &Step) -> Option<Constant>
    ensures { IfSome result (λ k. arranging.IsConstant step.now k.width k.value) }
{
    match step {
        Step::Rare(rare) => match rare.calculation {
            Calculation::Constant { value } => Some(Constant {
                width: rare.width,
                value,
            }),
            _ => None,
        },
        _ => None,
    }
}

impl Arranger {
    // With the given slots alone.
    fn new(alloc: Global, given: Numbers, total: Numbers) -> Result<Arranger, AllocError>
        requires { (given.narrow ≤ total.narrow) × (given.wide ≤ total.wide) }
        ensures { IfOk result (λ a. arranging.IsFresh given total a) }
    {
        Ok(Arranger {
            given,
            next: given,
            narrow_constants: Vec::new(alloc),
            wide_constants: Vec::new(alloc),
            runs: Vec::new(alloc),
            placement: Placement::new(alloc, given, total)?,
        })
    }

    // Takes the slot that comes next for a slot of the builder.
    fn take(&mut self, slot: Slot, is_narrow: bool) -> Result<(), AllocError>
        ensures { OnOk result (arranging.TakesAlone self.old self.new slot is_narrow) }
    {
        match self.next.next(is_narrow) {
            Some(next) => {
                self.placement.put(slot, next.slot.number());
                self.next = next.then;
                Ok(())
            }
            None => Err(AllocError),
        }
    }

    // Adds a narrow constant.
    fn add_narrow(&mut self, slot: Slot, value: u64) -> Result<(), AllocError>
        ensures { OnOk result (arranging.AddsNarrow self.old self.new slot value) }
    {
        self.take(slot, true)?;
        self.narrow_constants.push(value)?;
        Ok(())
    }

    // Adds a wide constant.
    fn add_wide(&mut self, slot: Slot, value: u128) -> Result<(), AllocError>
        ensures { OnOk result (arranging.AddsWide self.old self.new slot value) }
    {
        self.take(slot, false)?;
        self.wide_constants.push(value)?;
        Ok(())
    }

    // Adds a step, whose operands are placed.
    fn add_step(&mut self, alloc: Global, entry: &Entry) -> Result<(), AllocError>
        ensures { OnOk result (arranging.AddsStep self.old self.new entry.now) }
    {
        let step = renamed(&entry.step, &self.placement);
        self.take(entry.slot, entry.step.is_narrow())?;
        add(alloc, &mut self.runs, step)
    }

    // Adds an entry that is a constant; nothing for another.
    fn hoist(&mut self, entry: &Entry) -> Result<(), AllocError>
        ensures { OnOk result ((d : Draft) → arranging.Owns d entry.now → arranging.IsOpening d self.old
            → arranging.IsOpening d self.new) }
    {
        match constant_of(&entry.step) {
            Some(constant) => {
                if constant.width > 64 {
                    return self.add_wide(entry.slot, constant.value);
                }
                match u64::try_from(constant.value) {
                    Ok(value) => self.add_narrow(entry.slot, value),
                    Err(_) => Ok(()),
                }
            }
            None => Ok(()),
        }
    }

    // Adds all constants.
    fn hoist_all(&mut self, entries: &[Entry]) -> Result<(), AllocError>
        ensures { OnOk result ((d : Draft) → arranging.AllOwn d entries.now → arranging.IsOpening d self.old
            → arranging.IsOpening d self.new) }
    {
        for entry in entries {
            self.hoist(entry)?;
        }
        Ok(())
    }

    // Adds an entry that isn't placed yet, where all that it reads is.
    fn place_early(&mut self, alloc: Global, entry: &Entry) -> Result<(), AllocError>
        ensures { OnOk result ((d : Draft) → arranging.Owns d entry.now → arranging.IsArranged d self.old
            → arranging.IsArranged d self.new) }
    {
        if self.placement.is_set(entry.slot) {
            return Ok(());
        }
        if !are_set(&entry.step, &self.placement) {
            return Ok(());
        }
        self.add_step(alloc, entry)
    }

    // The same for the entry at a place, if there is one.
    fn place_at(&mut self, alloc: Global, entries: &[Entry], place: usize) -> Result<(), AllocError>
        ensures { OnOk result ((d : Draft) → arranging.AllOwn d entries.now → arranging.IsArranged d self.old
            → arranging.IsArranged d self.new) }
    {
        match entries.get(place) {
            Some(entry) => self.place_early(alloc, entry),
            None => Ok(()),
        }
    }

    // The same for entries in this order, whatever it is.
    fn place_in(
        &mut self,
        alloc: Global,
        entries: &[Entry],
        order: &[usize],
    ) -> Result<(), AllocError>
        ensures { OnOk result ((d : Draft) → arranging.AllOwn d entries.now → arranging.IsArranged d self.old
            → arranging.IsArranged d self.new) }
    {
        for place in order {
            self.place_at(alloc, entries, *place)?;
        }
        Ok(())
    }

    // Adds an entry, if it isn't placed yet.
    fn place(&mut self, alloc: Global, entry: &Entry) -> Result<(), AllocError>
        ensures { OnOk result (arranging.Places self.old self.new entry.now) }
    {
        if self.placement.is_set(entry.slot) {
            return Ok(());
        }
        self.add_step(alloc, entry)
    }

    // Adds each entry that isn't placed yet.
    fn place_all(&mut self, alloc: Global, entries: &[Entry]) -> Result<(), AllocError>
        ensures { OnOk result ((d : Draft) → arranging.HasEntries d entries.now → arranging.IsArranged d self.old
            → arranging.IsWhole d self.new) }
    {
        for entry in entries {
            self.place(alloc, entry)?;
        }
        Ok(())
    }

    // The program.
    fn finished(self) -> Closed
        requires { (d : Draft) × arranging.IsWhole d self }
        ensures { (d : Draft) → arranging.IsWhole d self → plan.Carries d result.program result.placement }
    {
        Closed {
            program: Program {
                given: counts(self.given),
                narrow_constants: self.narrow_constants,
                wide_constants: self.wide_constants,
                total: counts(self.next),
                runs: self.runs,
            },
            placement: self.placement,
        }
    }
}

// The same numbers as counts.
fn counts(numbers: Numbers) -> Counts
    ensures narrow { result.narrow ≡ numbers.narrow }
    ensures wide { result.wide ≡ numbers.wide }
{
    Counts {
        narrow: numbers.narrow as usize,
        wide: numbers.wide as usize,
    }
}

/// The program of these entries, and where it has their slots.
pub(crate) fn arranged(
    alloc: Global,
    given: Numbers,
    total: Numbers,
    entries: &[Entry],
) -> Result<Closed, AllocError>
    requires { arranging.AreEntries given total entries.now }
    ensures { IfOk result (λ closed.
        plan.Carries (arranging.draft_from given entries.now) closed.program closed.placement) }
{
    let mut arranger = Arranger::new(alloc, given, total)?;
    arranger.hoist_all(entries)?;
    let order = schedule::order(alloc, given, entries)?;
    arranger.place_in(alloc, entries, &order)?;
    arranger.place_all(alloc, entries)?;
    Ok(arranger.finished())
}
