//! The order in which the driven parts of a numbered design settle, or the loop that keeps them from having one.
//!
//! Below: `netlist`, by its public contract alone. Above: what runs a design.
//! Promise: `order` gives a list with all driven parts, each after those that it reads (`IsOrder` of
//! `netlist/specs/Order`), or the loop (`IsLoop` there): then there is no order. A part reads a part where bits of the
//! one reach bits of the other in the graph of nodes, so a vector may depend on itself, part by part. `laws` says that
//! each design has an order or a loop, and none both.
//! How: a quick search makes labels and distances that nothing rests on; a pass over the nodes, which says what each
//! part reads first, then judges them, and only where they are refused a slow search takes their place.
//! Not said: how long a call takes; that memory is enough.
#![tactic(auto)]

ghost use Rattle.std.specs.Prelude.{IfOk, IfErr};
ghost use Rattle.netlist.specs.Order.{IsOrder};
ghost use Rattle.comb_order.specs.Found as says;

pub mod answer;
mod distance;
mod graph;
mod guess;
pub mod laws;
mod quick;
mod reads;
mod round;
mod search;
mod sorted;

use answer::{Found, LoopParts, Order, OrderFault};
use netlist::flat::Flat;
use quick::quick;
use search::searched;
use std::alloc::{AllocError, Global};

// The order or the loop of a design: by labels of a quick search where they tell it, else part by part.
fn decided(alloc: Global, flat: &Flat) -> Result<Found, AllocError>
    ensures { IfOk result (λ found. says.Holds flat.now found) }
{
    let labels = guess::labels(alloc, flat)?;
    if labels.len() == flat.driven().len() {
        if let Some(found) = quick(alloc, flat, &labels)? {
            return Ok(found);
        }
    }
    searched(alloc, flat)
}

/// An order of the design's driven parts.
///
/// `Loop`: some driven part reads itself, directly or through others. Its list begins with the least such part; each
/// next one is the part that the one before it reads with the fewest reads back to the first, and of those the least.
/// `Memory`: out of memory.
pub fn order(alloc: Global, flat: &Flat) -> Result<Order, OrderFault>
    ensures order { IfOk result (λ o. IsOrder flat.now o) }
    ensures fault { IfErr result (λ e. says.HasCause flat.now e) }
{
    laws::exclusion_law();
    match decided(alloc, flat) {
        Ok(Found::Order(parts)) => Ok(Order { parts }),
        Ok(Found::Loop(parts)) => Err(OrderFault::Loop(LoopParts { parts })),
        Err(_) => Err(OrderFault::Memory),
    }
}
