//! Whether an assertion fires in a cycle: by the slots of the conditions of all stops, which are listed at the start.

ghost use Rattle.std.specs.Prelude.{◌≡◌, ◌<◌, ◌++◌, length, IfOk, OnOk};
ghost use Rattle.std.specs.List.{All};
ghost use Rattle.bit_ops.specs.Operators as ops;
ghost use Rattle.step_program.specs.Values.{slot_value};
ghost use Rattle.step_program.specs.Plan.{held};
ghost use Rattle.flat_sim.specs.Stops as stopping;

use netlist::design::{Block, Effect, Event};
use std::alloc::{AllocError, Global};
use step_program::step::Slot;
use step_program::words::SlotValues;

// Adds the slots of the conditions of a block's stops.
fn add_stops(slots: &mut Vec<Slot>, events: &[Event], nodes: &[Slot]) -> Result<(), AllocError>
    requires { All (λ x. x.condition < length nodes.now) events.now }
    ensures { OnOk result (slots.new.items ≡ slots.old.items ++ stopping.block_stops nodes.now events.now) }
{
    for event in events {
        if let Effect::Stopped(_, _) = &event.effect {
            slots.push(nodes[event.condition as usize])?;
        }
    }
    Ok(())
}

/// The slots of the conditions of all stops, where the nodes have these slots.
pub(crate) fn stop_slots(
    alloc: Global,
    blocks: &[Block],
    nodes: &[Slot],
) -> Result<Vec<Slot>, AllocError>
    requires { All (λ b. All (λ x. x.condition < length nodes.now) b.events) blocks.now }
    ensures { IfOk result (λ v. v.items ≡ stopping.stop_slots nodes.now blocks.now) }
{
    let mut slots = Vec::new(alloc);
    for block in blocks {
        add_stops(&mut slots, &block.events, nodes)?;
    }
    Ok(slots)
}

// Whether the number in a slot isn't 0.
fn holds(values: &SlotValues, slot: Slot) -> bool
    ensures { result ≡ ops.holds (slot_value (held values.now) slot) }
{
    match slot {
        Slot::Narrow(number) => match values.narrow.get(number as usize) {
            Some(value) => *value != 0,
            None => false,
        },
        Slot::Wide(number) => match values.wide.get(number as usize) {
            Some(value) => *value != 0,
            None => false,
        },
    }
}

/// Whether the number in one of these slots isn't 0. It takes no memory.
pub(crate) fn some_holds(values: &SlotValues, slots: &[Slot]) -> bool
    ensures { result ≡ stopping.some_holds (held values.now) slots.now }
{
    for slot in slots {
        if holds(values, *slot) {
            return true;
        }
    }
    false
}
