//! A numbered design of one clocked block as a design of a hierarchy.
//!
//! Below: `dt_core`, `bit_ops`, `flat_ir` (the design that is given), `netlist` (the one that is made). Above:
//! `vl_proc`, whose designs can be given, and what runs designs of a hierarchy alone.
//! Promise: `convert` answers out of memory, or a design with one scope, the same signals and the same run: with every
//! row and every state that fit, what the old design shows settles and nothing else does, and the next state and what
//! fires are the same (`specs/SameDesign`). `specs/OneBlock` says what a design must be for that.
//! How: a node for the whole of each signal stands first; then the nodes follow one by one, each at a width of its own,
//! with operands that are extended or cut to the operator's; then, for each write in order, a choice between what is
//! written and what the register takes else. Texts and stops become events in their order.
//! Not said: that memory is enough; more nodes or events than 2^32 - 1 count as out of memory. A stop's place has token
//! 0, since the old design has its line alone.
#![tactic(auto)]

ghost use Rattle.std.specs.Prelude.{◌≡◌, [], ◌∷◌, IfOk};
ghost use Rattle.netlist.specs.Drafted.{drafted};
ghost use Rattle.netlist.specs.Fits.{IsWellFormed};
ghost use Rattle.one_block.specs.OneBlock.{IsOneBlock};
ghost use Rattle.one_block.specs.SameDesign.{SameDesign};
ghost use Rattle.one_block.specs.SameDesign as spec;

mod events;
mod format;
mod lists;
mod made;
mod nodes;
mod operations;
mod registers;
mod table;

use dt_core::fault::NoMemory;
use dt_core::text::Text;
use events::events_of;
use lists::append;
use netlist::design::{Block, Event, Scope, ScopeKind};
use netlist::flat::{Flat, FlatDraft};
use operations::made_nodes;
use registers::{next_nodes, register_parts};
use std::alloc::Global;
use table::Table;

/// The design of a hierarchy that runs as a design of one clocked block does.
pub fn convert(alloc: Global, plain: &flat_ir::flat::Flat) -> Result<Flat, NoMemory>
    requires { IsOneBlock plain.now }
    ensures { IfOk result (SameDesign plain.now) }
{
    let draft = draft_of(alloc, plain)?;
    Ok(draft.close())
}

// The parts of that design.
fn draft_of(alloc: Global, plain: &flat_ir::flat::Flat) -> Result<FlatDraft, NoMemory>
    requires { IsOneBlock plain.now }
    ensures fits { IfOk result (λ draft. IsWellFormed (drafted draft)) }
    ensures same { IfOk result (λ draft. SameDesign plain.now (drafted draft)) }
{
    let table = Table::of(alloc, plain.signals())?;
    let mut nodes = table.read(alloc)?;
    let made = made_nodes(alloc, &mut nodes, &table, plain.nodes())?;
    let next = next_nodes(alloc, &mut nodes, &table.registers, &made, plain.actions())?;
    let events = events_of(alloc, &made, plain.actions())?;
    Ok(FlatDraft {
        scopes: scopes_of(alloc, plain.name())?,
        registers: register_parts(alloc, &table.registers, &next)?,
        blocks: blocks_of(alloc, events)?,
        signals: table.signals,
        inputs: table.inputs,
        driven: Vec::new(alloc),
        memories: Vec::new(alloc),
        nodes: nodes.into_list(),
        writes: Vec::new(alloc),
    })
}

// The one scope, of this name.
fn scopes_of(alloc: Global, name: &[u8]) -> Result<Vec<Scope>, NoMemory>
    ensures { IfOk result (λ scopes. scopes.items ≡ spec.top_scope name.now ∷ []) }
{
    let mut scopes = Vec::new(alloc);
    let top = Scope {
        parent: None,
        kind: ScopeKind::Instance,
        name: Text::copied(alloc, name)?,
    };
    append(&mut scopes, top)?;
    Ok(scopes)
}

// The one block, of these events.
fn blocks_of(alloc: Global, events: Vec<Event>) -> Result<Vec<Block>, NoMemory>
    ensures { IfOk result (λ blocks. blocks.items ≡ record { scope = 0; events = events.items } ∷ []) }
{
    let mut blocks = Vec::new(alloc);
    append(&mut blocks, Block { scope: 0, events })?;
    Ok(blocks)
}
