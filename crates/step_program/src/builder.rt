//! Builders of programs.

ghost use Rattle.std.specs.Prelude.{◌≡◌, ◌<◌, ◌^◌, [], IfOk, IsTrue, true};
ghost use Rattle.step_program.specs.Values as values;
ghost use Rattle.step_program.specs.Fits as fits;
ghost use Rattle.step_program.specs.Draft as draft;
ghost use Rattle.step_program.specs.Plan as plan;
ghost use Rattle.step_program.specs.declared.step.Calculation.TheVariants as c;
ghost use Rattle.step_program.specs.declared.step.Step.TheVariants as s;

use crate::arranger::{Closed, arranged};
use crate::entry::Entry;
use crate::keys::key_of;
use crate::known::found;
use crate::numbers::Numbers;
use crate::step::{Calculation, Rare, Slot, Step};
use dt_core::fault::NoMemory;
use std::alloc::Global;
use std::collections::HashMap;
use std::marker::Model;

/// A program that is being built: how many slots of each kind are given, the steps, and how many slots there are.
#[derive(Drop)]
pub struct Builder {
    given: Numbers,
    next: Numbers,
    entries: Vec<Entry>,
    known: HashMap<u64, u32>,
}

impl Model for Builder {
    ghost use Rattle.step_program.specs.Draft.{Draft};

    ghost Value = { Draft };

    ghost use Rattle.step_program.specs.Built.{draft_of, IsBuilt};

    ghost view = { draft_of };

    ghost invariant = { IsBuilt };
}

impl Builder {
    /// A builder with so many narrow slots and so many wide ones that are given, and no steps.
    pub fn new(alloc: Global, narrow: u32, wide: u32) -> Result<Builder, NoMemory>
        ensures { IfOk result (λ b. b ≡ record { narrow = narrow; wide = wide; steps = [] }) }
    {
        let given = Numbers { narrow, wide };
        Ok(Builder {
            given,
            next: given,
            entries: Vec::new(alloc),
            known: HashMap::new(alloc),
        })
    }

    /// A slot with this value. Out of memory also where there would be 2^32 slots of its kind.
    pub fn constant(&mut self, width: u32, value: u128) -> Result<Slot, NoMemory>
        requires { fits.IsWidth width × (value < 2 ^ width) }
        ensures { IfOk result (λ slot. draft.HasStep self.old self.new
            (s.Rare (record { width = width; calculation = c.Constant value })) slot) }
    {
        self.push(Step::Rare(Rare {
            width,
            calculation: Calculation::Constant { value },
        }))
    }

    /// A slot with the step's value: a new one, or that of an equal step, if it is a fast step or a constant. Out of memory
    /// also where there would be 2^32 slots of its kind.
    pub fn push(&mut self, step: Step) -> Result<Slot, NoMemory>
        requires { draft.Fits self.old step }
        ensures { IfOk result (λ slot. draft.HasStep self.old self.new step slot) }
    {
        let key = key_of(&step);
        match found(&self.known, &self.entries, key, &step) {
            Some(slot) => Ok(slot),
            None => self.append(key, step),
        }
    }

    // A new slot with the step's value.
    fn append(&mut self, key: u64, step: Step) -> Result<Slot, NoMemory>
        requires { draft.Fits self.old step }
        ensures { IfOk result (λ slot. draft.HasStep self.old self.new step slot) }
    {
        let next = match self.next.next(step.is_narrow()) {
            Some(next) => next,
            None => return Err(NoMemory),
        };
        let number = u32::try_from(self.entries.len()).unwrap_or(u32::MAX);
        if self.known.insert(key, number).is_err() {
            return Err(NoMemory);
        }
        let entry = Entry {
            step,
            slot: next.slot,
        };
        match self.entries.push(entry) {
            Ok(()) => {
                self.next = next.then;
                Ok(next.slot)
            }
            Err(_) => Err(NoMemory),
        }
    }

    /// The program of these steps, and where it has their slots.
    pub fn close(self, alloc: Global) -> Result<Closed, NoMemory>
        ensures { IfOk result (λ closed. plan.Carries self closed.program closed.placement) }
    {
        Ok(arranged(alloc, self.given, self.next, &self.entries)?)
    }
}
