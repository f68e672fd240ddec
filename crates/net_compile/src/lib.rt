//! A numbered design as a straight-line program over slots.
//!
//! Below: `netlist`, `step_program`, and `bit_ops`. Above: what runs a design.
//! Promise: `compile` gives a program whose given slots are those of the register parts and of the data inputs. For
//! each state and each row that fit, and all values that settle with them, the slot of each node holds the node's value
//! once the program has run over given slots that hold the numbers of the state and the row (`specs/Compiles`). A
//! driven part has its node's value, so a signal's is put together from slots.
//! How: nodes are made to steps in the order of the driven parts that they read, so that a part which is read stands in
//! a slot. A node that has the value of another one has its slot. Bits of a signal are its pieces, side by side: bits of nodes, of given slots, or bits that stay. A
//! calculation at up to 64 bits is a fast step where there is one, else an operation of `bit_ops`.
//! Not said: how long a call takes; that memory is enough. `compile` also says that memory is out where a node would
//! come before one that it reads, which no order of the driven parts does: that is tested, and not proved.
#![tactic(auto)]

ghost use Rattle.std.specs.Prelude.{◌≡◌, ◌<◌, ℕ, length, IfOk, Some, None};
ghost use Rattle.netlist.specs.Order.{IsOrder};
ghost use Rattle.net_compile.specs.Compiles as compiles;

pub mod compiled;
mod layout;
mod leaf;
mod lower;
mod ones;
mod operand;
mod pieces;
mod quick;
mod ranges;
mod same;
mod shape;
mod turns;

use compiled::Compiled;
use dt_core::fault::NoMemory;
use layout::Layout;
use lower::all_nodes;
use netlist::flat::Flat;
use std::alloc::{AllocError, Global};
use step_program::placement::Placement;
use step_program::step::Slot;
use turns::in_turn;

// Where a program has the slots of nodes, each of which has one.
fn placed(
    alloc: Global,
    slots: &[Option<Slot>],
    placement: &Placement,
) -> Result<Vec<Slot>, AllocError>
    ensures { IfOk result (λ v. compiles.ArePlaced placement.now slots.now v.items) }
{
    let mut found = Vec::new(alloc);
    for slot in slots {
        match slot {
            Some(slot) => found.push(placement.slot(*slot))?,
            None => return Err(AllocError),
        }
    }
    Ok(found)
}

/// The program of a design, whose driven parts stand in this order.
pub fn compile(alloc: Global, flat: &Flat, order: &[u32]) -> Result<Compiled, NoMemory>
    requires { IsOrder flat.now order.now }
    ensures { IfOk result (λ c. compiles.Compiles flat.now c) }
{
    let layout = Layout::of(alloc, flat)?;
    let turns = in_turn(alloc, flat, &layout, order)?;
    let made = all_nodes(alloc, flat, &layout, &turns)?;
    let closed = made.builder.close(alloc)?;
    let nodes = placed(alloc, &made.slots, &closed.placement)?;
    Ok(Compiled {
        program: closed.program,
        given: layout.given,
        nodes,
    })
}
