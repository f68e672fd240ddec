//! The memory of a program that runs, and the words of memories that it reads.

ghost use Rattle.std.specs.Prelude.{◌≡◌};
ghost use Rattle.step_program.specs.Values as values;
ghost use Rattle.step_program.specs.Plan as plan;

use crate::step::Slot;

/// The words of a memory, from the least index on: each below 2^64, or each below 2^128.
#[derive(Drop)]
pub enum MemoryWords {
    Narrow(Vec<u64>),
    Wide(Vec<u128>),
}

/// The numbers in the slots of each kind.
#[derive(Drop)]
pub struct SlotValues {
    pub narrow: Vec<u64>,
    pub wide: Vec<u128>,
}

impl SlotValues {
    /// The number in a slot; 0 where there is none.
    pub fn value(&self, slot: Slot) -> u128
        ensures { result ≡ values.slot_value (plan.held self.now) slot }
    {
        match slot {
            Slot::Narrow(number) => match self.narrow.get(number as usize) {
                Some(value) => u128::from(*value),
                None => 0,
            },
            Slot::Wide(number) => match self.wide.get(number as usize) {
                Some(value) => *value,
                None => 0,
            },
        }
    }
}
