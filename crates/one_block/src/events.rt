//! Texts and stops as events.

ghost use Rattle.std.specs.Prelude.{◌≡◌, ◌<◌, ◌≤◌, ◌^◌, [], ◌∷◌, ◌++◌, List, ℕ, IfOk, OnOk, length, slice_index};
ghost use Rattle.flat_ir.specs.Format.{format_text};
ghost use Rattle.one_block.specs.Calls.Registers as fits;
ghost use Rattle.one_block.specs.Calls.Events as spec;

use crate::format::front_of;
use crate::lists;
use crate::made::Made;
use dt_core::append;
use dt_core::fault::NoMemory;
use dt_core::place::Place;
use dt_core::text::Text;
use flat_ir::design::{Action, Deed};
use flat_ir::format::write_format;
use netlist::design::{Base, Effect, Event, Shown};
use std::alloc::Global;

/// The events of the block. More than can be numbered count as out of memory.
pub(crate) fn events_of(
    alloc: Global,
    made: &[Made],
    actions: &[Action],
) -> Result<Vec<Event>, NoMemory>
    requires { (r : ℕ) × fits.ActionsFit r (length made.now) actions.now }
    ensures few { IfOk result (λ events. length events.items < 2 ^ 32) }
    ensures events { IfOk result (λ events. spec.AddsEvents made.now [] events.items actions.now) }
{
    let mut events = Vec::new(alloc);
    for action in actions {
        tell(alloc, &mut events, made, action)?;
    }
    if events.len() > u32::MAX as usize {
        return Err(NoMemory);
    }
    Ok(events)
}

// Adds the events of an action.
fn tell(
    alloc: Global,
    events: &mut Vec<Event>,
    made: &[Made],
    action: &Action,
) -> Result<(), NoMemory>
    requires { (r : ℕ) × fits.ActionFits r (length made.now) action.now }
    ensures { OnOk result (spec.AddsEvents made.now events.old.items events.new.items (action.now ∷ [])) }
{
    let condition = made[action.condition as usize].node;
    match &action.deed {
        Deed::Write(_, _) => Ok(()),
        Deed::Say(format, shown) => match shown {
            Some(shown) => {
                let node = made[*shown as usize].node;
                show(alloc, events, condition, format.bytes(), node)
            }
            None => say(alloc, events, condition, format.bytes()),
        },
        Deed::Stop(line) => {
            let place = Place {
                token: 0,
                line: *line,
            };
            add(events, condition, Effect::Stopped(place, false))
        }
    }
}

// Adds an event.
fn add(events: &mut Vec<Event>, condition: u32, effect: Effect) -> Result<(), NoMemory>
    ensures { OnOk result (events.new.items ≡ events.old.items ++ spec.event condition effect ∷ []) }
{
    lists::append(events, Event { condition, effect })
}

// Adds the text of a format that shows nothing, and a line's end.
fn say(
    alloc: Global,
    events: &mut Vec<Event>,
    condition: u32,
    format: &[u8],
) -> Result<(), NoMemory>
    ensures { OnOk result (events.new.items ≡ events.old.items ++ spec.said_line condition format.now ∷ []) }
{
    let mut text = Vec::new(alloc);
    write_format(&mut text, format, None)?;
    append::push(&mut text, b"\n")?;
    add(events, condition, Effect::Said(Text::of_bytes(text)))
}

// Adds the text of a format that shows a node, and a line's end.
fn show(
    alloc: Global,
    events: &mut Vec<Event>,
    condition: u32,
    format: &[u8],
    node: u32,
) -> Result<(), NoMemory>
    ensures { let t : List ℕ → List ℕ = spec.shown_line format.now node in
        OnOk result (spec.AddsText condition node t events.old.items events.new.items) }
{
    let front = front_of(alloc, format)?;
    let mut text = front.text;
    match front.end {
        Some(end) => {
            add_text(events, condition, text)?;
            add(events, condition, Effect::Showed(fewest_digits(node)))?;
            say(alloc, events, condition, &format[end..])
        }
        None => {
            append::push(&mut text, b"\n")?;
            add(events, condition, Effect::Said(Text::of_bytes(text)))
        }
    }
}

// Adds a text, if it isn't empty.
fn add_text(events: &mut Vec<Event>, condition: u32, text: Vec<u8>) -> Result<(), NoMemory>
    ensures { OnOk result (events.new.items ≡ events.old.items ++ spec.texts_of condition text.items) }
{
    if text.is_empty() {
        return Ok(());
    }
    add(events, condition, Effect::Said(Text::of_bytes(text)))
}

// A node's value in decimal, unsigned, with the fewest digits.
fn fewest_digits(node: u32) -> Shown
    ensures { result ≡ spec.shown_as node }
{
    Shown {
        node,
        signed: false,
        base: Base::Decimal,
        fewest: true,
    }
}
