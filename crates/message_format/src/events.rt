//! The events of a message.

ghost use Rattle.std.specs.Prelude.{◌≡◌, ◌++◌, ◌∷◌, [], ℕ, List, Some, None, Err, IfOk, OnOk};
ghost use Rattle.netlist.specs.declared.design.Effect.TheVariants as effects;
ghost use Rattle.netlist.specs.declared.node.Node.{Node};
ghost use Rattle.message_format.specs.Events.{piece_events, showed};
ghost use Rattle.message_format.specs.Formatted.{formatted};
ghost use Rattle.message_format.specs.Pieces.{Says, values_of};
ghost use Rattle.message_format.specs.declared.fault.FormatFault.TheVariants as fault;

use crate::element::Item;
use crate::fault::FormatFault;
use crate::piece::Piece;
use crate::split::split;
use dt_core::fault::NoMemory;
use dt_core::text::Text;
use netlist::design::{Effect, Event, Shown};
use std::alloc::Global;

/// An argument of a message: its node, and whether its value is signed.
#[derive(Clone, Copy, Debug, PartialEq, Eq)]
pub struct Argument {
    pub node: u32,
    pub signed: bool,
}

/// The events that say a message in the scope of this path, in the cycles in which the condition, a node, isn't 0; Bad
/// exactly where the format has no text with these arguments, want of memory aside. The line's end that some messages
/// have after their format is the caller's.
pub fn message_events(
    alloc: Global,
    condition: u32,
    path: &[u8],
    format: &[u8],
    arguments: &[Argument],
) -> Result<Vec<Event>, FormatFault>
    ensures says { IfOk result (λ es. (nodes : List Node) (xs : List ℕ) → (text : List ℕ)
        × (formatted path.now format.now (values_of nodes xs arguments.now) ≡ Some text)
        × Says nodes xs condition text es.items) }
    ensures bad { result ≡ Err fault.Bad → (nodes : List Node) (xs : List ℕ)
        → formatted path.now format.now (values_of nodes xs arguments.now) ≡ None }
{
    let pieces = split(alloc, format)?;
    events_of(alloc, condition, path, &pieces, arguments)
}

// An event for each piece.
fn events_of(
    alloc: Global,
    condition: u32,
    path: &[u8],
    pieces: &[Piece],
    arguments: &[Argument],
) -> Result<Vec<Event>, FormatFault>
    ensures events { IfOk result (λ es. piece_events condition path.now pieces.now arguments.now ≡ Some es.items) }
    ensures bad { result ≡ Err fault.Bad
        → piece_events condition path.now pieces.now arguments.now ≡ None }
{
    let mut events = Vec::new(alloc);
    let mut left = arguments;
    for piece in pieces {
        match piece {
            Piece::Said(text) => say(alloc, &mut events, condition, text.bytes())?,
            Piece::Path => say(alloc, &mut events, condition, path)?,
            Piece::Value(item) => {
                let Some((argument, rest)) = left.split_first() else {
                    return Err(FormatFault::Bad);
                };
                push_event(&mut events, condition, shown(*item, *argument))?;
                left = rest;
            }
        }
    }
    if left.is_empty() {
        Ok(events)
    } else {
        Err(FormatFault::Bad)
    }
}

// Appends the event that says a text.
fn say(alloc: Global, events: &mut Vec<Event>, condition: u32, text: &[u8]) -> Result<(), NoMemory>
    ensures { OnOk result (events.new.items
        ≡ events.old.items ++ record { condition = condition; effect = effects.Said text.now } ∷ []) }
{
    push_event(events, condition, Effect::Said(Text::copied(alloc, text)?))
}

// Appends an event.
fn push_event(events: &mut Vec<Event>, condition: u32, effect: Effect) -> Result<(), NoMemory>
    ensures { OnOk result (events.new.items
        ≡ events.old.items ++ record { condition = condition; effect = effect } ∷ []) }
{
    match events.push(Event { condition, effect }) {
        Ok(()) => Ok(()),
        Err(_) => Err(NoMemory),
    }
}

// An item shows an argument.
fn shown(item: Item, argument: Argument) -> Effect
    ensures { result ≡ showed item argument }
{
    Effect::Showed(Shown {
        node: argument.node,
        signed: argument.signed,
        base: item.base,
        fewest: item.fewest,
    })
}
