//! The assertions of a design.

ghost use Rattle.std.specs.Prelude.{◌≡◌, ◌++◌, ◌∷◌, [], IfOk, OnOk};
ghost use Rattle.design_names.specs.Stops.{effect_stop, event_stops, block_stops};

use crate::append::push;
use dt_core::fault::NoMemory;
use dt_core::place::Place;
use netlist::design::{Block, Effect, Event};
use std::alloc::Global;

/// An assertion: the scope in which its block stands, its place in the text, and whether it is spelt `$fatal`.
#[derive(Clone, Copy, Debug, PartialEq, Eq)]
pub struct Stop {
    pub scope: u32,
    pub place: Place,
    pub fatal: bool,
}

/// The assertions of all blocks, in order.
pub(crate) fn list_stops(alloc: Global, blocks: &[Block]) -> Result<Vec<Stop>, NoMemory>
    ensures { IfOk result (λ stops. stops.items ≡ block_stops blocks.now) }
{
    let mut stops = Vec::new(alloc);
    for block in blocks {
        push_events(&mut stops, block.scope, &block.events)?;
    }
    Ok(stops)
}

// Appends the assertions of a block's events.
fn push_events(stops: &mut Vec<Stop>, scope: u32, events: &[Event]) -> Result<(), NoMemory>
    ensures { OnOk result (stops.new.items ≡ stops.old.items ++ event_stops scope events.now) }
{
    for event in events {
        push_effect(stops, scope, &event.effect)?;
    }
    Ok(())
}

// Appends an effect, if it is an assertion.
fn push_effect(stops: &mut Vec<Stop>, scope: u32, effect: &Effect) -> Result<(), NoMemory>
    ensures { OnOk result (stops.new.items ≡ stops.old.items ++ effect_stop scope effect.now) }
{
    match effect {
        Effect::Said(_) | Effect::Showed(_) => Ok(()),
        Effect::Stopped(place, fatal) => push(
            stops,
            Stop {
                scope,
                place: *place,
                fatal: *fatal,
            },
        ),
    }
}
