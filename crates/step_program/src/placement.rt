//! Where a program has the slots of the builder that it came from.

ghost use Rattle.std.specs.Prelude.{◌≡◌, ◌↔◌, ◌<◌, ◌≤◌, ◌-◌, ◌^◌, IsTrue, IfOk, length, slice_index, slice_set, ℕ};
ghost use Rattle.step_program.specs.Arranging.{IsStart, StartsAt};
ghost use Rattle.step_program.specs.Table as table;

use crate::numbers::Numbers;
use crate::step::Slot;
use std::alloc::{AllocError, Global};
use std::marker::Model;

// The number that stands for no slot.
const NONE: u32 = u32::MAX;

/// For each slot of a builder the program's slot.
#[derive(Drop)]
pub struct Placement {
    narrow: Vec<u32>,
    wide: Vec<u32>,
}

impl Model for Placement {
    ghost use Rattle.step_program.specs.Table.{Table};

    ghost Value = { Table };

    ghost view = { λ p. record { narrow = p.narrow.items; wide = p.wide.items } };
}

// The number at a place; 0 outside.
fn found(numbers: &[u32], place: u32) -> u32
    ensures { result ≡ slice_index numbers.now place }
{
    match numbers.get(place as usize) {
        Some(number) => *number,
        None => 0,
    }
}

// The numbers of the given slots, each its own, and after them of so many slots that have none.
fn numbers(alloc: Global, given: u32, total: u32) -> Result<Vec<u32>, AllocError>
    requires { given ≤ total }
    ensures { IfOk result (λ v. IsStart given total v.items) }
{
    let mut numbers = Vec::new(alloc);
    for number in 0..total {
        numbers.push(if number < given { number } else { NONE })?;
    }
    Ok(numbers)
}

// Writes a number to a place, if there is such a place.
fn put(numbers: &mut [u32], place: u32, number: u32)
    ensures { numbers.new ≡ slice_set numbers.old place number }
{
    if (place as usize) < numbers.len() {
        numbers[place as usize] = number;
    }
}

impl Placement {
    // Where each given slot stands at its own number, and no other slot of so many has a place.
    pub(crate) fn new(
        alloc: Global,
        given: Numbers,
        total: Numbers,
    ) -> Result<Placement, AllocError>
        requires { (given.narrow ≤ total.narrow) × (given.wide ≤ total.wide) }
        ensures { IfOk result (λ p. StartsAt given total p) }
    {
        let narrow = numbers(alloc, given.narrow, total.narrow)?;
        let wide = numbers(alloc, given.wide, total.wide)?;
        Ok(Placement { narrow, wide })
    }

    /// The program's slot for a slot of the builder. It takes no memory.
    pub fn slot(&self, slot: Slot) -> Slot
        ensures { result ≡ table.stands self.now slot }
    {
        match slot {
            Slot::Narrow(number) => Slot::Narrow(found(&self.narrow, number)),
            Slot::Wide(number) => Slot::Wide(found(&self.wide, number)),
        }
    }

    // The number of the program's slot for a narrow slot of the builder.
    pub(crate) fn narrow(&self, number: u32) -> u32
        ensures { result ≡ slice_index self.now.narrow number }
    {
        found(&self.narrow, number)
    }

    // Whether a slot of the builder has one.
    pub(crate) fn is_set(&self, slot: Slot) -> bool
        ensures { IsTrue result ↔ table.IsSet self.now slot }
    {
        match slot {
            Slot::Narrow(number) => found(&self.narrow, number) < NONE,
            Slot::Wide(number) => found(&self.wide, number) < NONE,
        }
    }

    // Gives a slot of the builder a number.
    pub(crate) fn put(&mut self, slot: Slot, number: u32)
        ensures { self.new ≡ table.with_place self.old slot number }
    {
        match slot {
            Slot::Narrow(place) => put(&mut self.narrow, place, number),
            Slot::Wide(place) => put(&mut self.wide, place, number),
        }
    }
}
