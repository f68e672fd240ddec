//! Numbers that are put into slots.

ghost use Rattle.std.specs.Prelude.{◌≡◌, ◌<◌, ◌≤◌, ◌^◌, length, take, drop, IfOk};
ghost use Rattle.step_program.specs.Fits.{IsSlot};
ghost use Rattle.step_program.specs.Plan.{held};
ghost use Rattle.held_state.specs.Slots as slots;

use std::alloc::{AllocError, Global};
use step_program::step::Slot;
use step_program::words::SlotValues;

/// Puts a number into a slot.
pub fn put(values: &mut SlotValues, slot: Slot, number: u128)
    requires there { IsSlot (length values.old.narrow.items) (length values.old.wide.items) slot }
    requires takes { slots.Takes slot number }
    ensures { held values.new ≡ slots.with_number (held values.old) slot number }
{
    match slot {
        Slot::Narrow(place) => values.narrow[place as usize] = number as u64,
        Slot::Wide(place) => values.wide[place as usize] = number,
    }
}

/// Puts these numbers into these slots, one each. It takes no memory.
pub fn put_all(values: &mut SlotValues, found: &[Slot], numbers: &[u128])
    requires { slots.AllTake (length values.old.narrow.items) (length values.old.wide.items) found.now numbers.now }
    ensures { held values.new ≡ slots.with_numbers (held values.old) found.now numbers.now }
{
    for (k, number) in numbers.iter().enumerate() {
        put(values, found[k], *number);
    }
}

/// What stands in these slots.
pub fn read_all(alloc: Global, values: &SlotValues, found: &[Slot]) -> Result<Vec<u128>, AllocError>
    ensures { IfOk result (λ v. v.items ≡ slots.numbers (held values.now) found.now) }
{
    Ok(found.iter().map(|slot| values.value(*slot)).collect(alloc)?)
}

/// The first slots, so many.
pub fn first_slots(found: &[Slot], count: usize) -> &[Slot]
    requires { count ≤ length found.now }
    ensures { result.now ≡ take count found.now }
{
    &found[..count]
}

/// The slots after the first ones, of which there are so many.
pub fn later_slots(found: &[Slot], count: usize) -> &[Slot]
    requires { count ≤ length found.now }
    ensures { result.now ≡ drop count found.now }
{
    &found[count..]
}
