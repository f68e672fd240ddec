//! The messages of what fires in a cycle.

ghost use Rattle.std.specs.Prelude.{◌≡◌, ◌<◌, length, IfOk};
ghost use Rattle.std.specs.List.{All};
ghost use Rattle.netlist.specs.Fits.{EventFits};
ghost use Rattle.netlist.specs.Run.{blocks_fired};
ghost use Rattle.message_text.specs.Told as told;
ghost use Rattle.held_state.specs.Writes as writes;

use dt_core::fault::NoMemory;
use held_state::nodes::Nodes;
use message_text::telling::{Fired, Given, Telling};
use netlist::design::{Effect, Event};
use std::alloc::{AllocError, Global};

// What an event is given.
fn given(nodes: &Nodes, event: &Event) -> Given
    requires event { EventFits nodes.now.flat.nodes event.now }
    ensures given { told.IsGiven nodes.now.flat.nodes nodes.now.numbers event.now result }
    ensures fits { told.FitsShown event.now.effect result }
{
    let done = nodes.holds(event.condition);
    match &event.effect {
        Effect::Showed(shown) => {
            let bits = nodes.bits(shown.node);
            Given {
                done,
                width: bits.width(),
                value: bits.value(),
            }
        }
        Effect::Said(_) | Effect::Stopped(_, _) => Given {
            done,
            width: 1,
            value: 0,
        },
    }
}

// What each event of a block is given.
fn all_given(alloc: Global, nodes: &Nodes, events: &[Event]) -> Result<Vec<Given>, AllocError>
    requires events { All (EventFits nodes.now.flat.nodes) events.now }
    ensures given { IfOk result (λ v. told.AreGiven nodes.now.flat.nodes nodes.now.numbers events.now v.items) }
    ensures fits { IfOk result (λ v. told.FitAll events.now v.items) }
{
    let mut all = Vec::with_capacity(alloc, events.len())?;
    for event in events {
        all.push(given(nodes, event))?;
    }
    Ok(all)
}

/// The assertions that fire, in order, with their messages.
pub(crate) fn all_fired(alloc: Global, nodes: &Nodes) -> Result<Vec<Fired>, NoMemory>
    ensures { IfOk result (λ fired. fired.items
        ≡ blocks_fired nodes.now.flat.nodes nodes.now.numbers 0 nodes.now.flat.blocks) }
{
    let mut telling = Telling::new(alloc);
    for block in nodes.flat.blocks() {
        let given = all_given(alloc, nodes, &block.events)?;
        telling.tell_block(alloc, &block.events, &given)?;
    }
    Ok(telling.fired())
}
