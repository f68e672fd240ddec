//! Programs that run.

ghost use Rattle.std.specs.Prelude.{◌≡◌, ◌+◌, ◌≤◌, ◌<◌, length, take, drop, map, IfOk};
ghost use Rattle.step_program.specs.Values as values;
ghost use Rattle.step_program.specs.Plan as plan;
ghost use Rattle.step_program.specs.Laws as laws;

use crate::laws::ready_law;
use crate::runs::{Counts, Run, run_all};
use crate::words::{MemoryWords, SlotValues};
use dt_core::fault::NoMemory;
use std::alloc::Global;
use std::marker::Model;

/// A program: how many slots of each kind are given, the constants that stand after them, how many slots there are in
/// all, and the steps, in runs of one kind.
#[derive(Drop)]
pub struct Program {
    pub(crate) given: Counts,
    pub(crate) narrow_constants: Vec<u64>,
    pub(crate) wide_constants: Vec<u128>,
    pub(crate) total: Counts,
    pub(crate) runs: Vec<Run>,
}

impl Model for Program {
    ghost use Rattle.step_program.specs.Plan.{Plan};

    ghost Value = { Plan };

    ghost use Rattle.step_program.specs.Inside.{plan_of, IsSound};

    ghost view = { plan_of };

    ghost invariant = { IsSound };
}

// So many zeros, then the constants, then zeros up to the total.
fn memory<T: Copy>(
    alloc: Global,
    zero: T,
    given: usize,
    constants: &[T],
    total: usize,
) -> Result<Vec<T>, NoMemory>
    requires { given + length constants.now ≤ total }
    ensures count { IfOk result (λ v. length v.items ≡ total) }
    ensures constants { IfOk result (λ v. take (length constants.now) (drop given v.items) ≡ constants.now) }
{
    let mut slots = vec![in alloc; zero; given]?;
    slots.extend_from_slice(constants)?;
    slots.resize(total, zero)?;
    Ok(slots)
}

impl Program {
    /// The program's memory, with its constants in their places.
    pub fn start(&self, alloc: Global) -> Result<SlotValues, NoMemory>
        ensures { IfOk result (λ slots. plan.IsReady self.now (plan.held slots)) }
    {
        let narrow = memory(
            alloc,
            0u64,
            self.given.narrow,
            &self.narrow_constants,
            self.total.narrow,
        )?;
        let wide = memory(
            alloc,
            0u128,
            self.given.wide,
            &self.wide_constants,
            self.total.wide,
        )?;
        Ok(SlotValues { narrow, wide })
    }

    // Where the steps' slots begin.
    fn first(&self) -> Counts
        ensures narrow { result.narrow ≡ plan.narrow_front self.now }
        ensures wide { result.wide ≡ plan.wide_front self.now }
    {
        Counts {
            narrow: self.given.narrow + self.narrow_constants.len(),
            wide: self.given.wide + self.wide_constants.len(),
        }
    }

    /// Puts the values of all steps into their slots, over what is given. It takes no memory.
    pub fn run(&self, words: &[MemoryWords], slots: &mut SlotValues)
        requires { plan.IsReady self.now (plan.held slots.old) }
        ensures value { plan.held slots.new
            ≡ plan.ran self.now (map values.contents words.now) (plan.given_in self.now (plan.held slots.old)) }
        ensures ready { plan.IsReady self.now (plan.held slots.new) }
        ensures given { plan.given_in self.now (plan.held slots.new) ≡ plan.given_in self.now (plan.held slots.old) }
    {
        let first = self.first();
        run_all(
            &self.runs,
            words,
            slots.narrow.as_mut_slice(),
            slots.wide.as_mut_slice(),
            first,
        );
    }

    /// Writes a number to a given narrow slot, if there is such a slot.
    pub fn give_narrow(&self, slots: &mut SlotValues, number: u32, value: u64)
        requires { plan.IsReady self.now (plan.held slots.old) }
        ensures ready { plan.IsReady self.now (plan.held slots.new) }
        ensures given { number < self.now.narrow
            → plan.held slots.new ≡ laws.with_narrow (plan.held slots.old) number value }
        ensures beyond { self.now.narrow ≤ number → plan.held slots.new ≡ plan.held slots.old }
    {
        ready_law();
        if (number as usize) < self.given.narrow {
            slots.narrow[number as usize] = value;
        }
    }

    /// Writes a number to a given wide slot, if there is such a slot.
    pub fn give_wide(&self, slots: &mut SlotValues, number: u32, value: u128)
        requires { plan.IsReady self.now (plan.held slots.old) }
        ensures ready { plan.IsReady self.now (plan.held slots.new) }
        ensures given { number < self.now.wide
            → plan.held slots.new ≡ laws.with_wide (plan.held slots.old) number value }
        ensures beyond { self.now.wide ≤ number → plan.held slots.new ≡ plan.held slots.old }
    {
        ready_law();
        if (number as usize) < self.given.wide {
            slots.wide[number as usize] = value;
        }
    }
}
