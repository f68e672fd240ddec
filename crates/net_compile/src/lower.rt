//! Nodes as steps, one after another.

ghost use Rattle.std.specs.Prelude.{◌≡◌, ◌<◌, ℕ, length, slice_index_or, None, IfOk, OnOk, IfSome};
ghost use Rattle.netlist.specs.declared.node.Operation.TheVariants as o;
ghost use Rattle.net_compile.specs.Lowered as lowered;
ghost use Rattle.net_compile.specs.Pieces as pieces;
ghost use Rattle.net_compile.specs.Stands as stands;

use crate::layout::Layout;
use crate::leaf::bits;
use crate::ones::with_ones;
use crate::operand::{calculation, constant_place, operand, slot_of};
use crate::quick::step_of;
use crate::same::same_as;
use crate::shape::cut;
use dt_core::fault::NoMemory;
use netlist::design::Index;
use netlist::flat::Flat;
use netlist::laws::values_law;
use netlist::node::{Node, Operation};
use std::alloc::{AllocError, Global};
use step_program::builder::Builder;
use step_program::laws::fits_law;
use step_program::step::Slot;

// The slot of a node that is calculated; none where a node that it reads has none yet.
fn calculated(
    flat: &Flat,
    layout: &Layout,
    slots: &[Option<Slot>],
    builder: &mut Builder,
    node: Node,
) -> Result<Option<Slot>, NoMemory>
    requires layout { pieces.IsLaidOut flat.now layout.now }
    requires begins { stands.Begins (pieces.front_of layout.now.given) builder.old }
    requires nodes { stands.NodesStand flat.now (pieces.front_of layout.now.given) builder.old slots.now }
    requires node { lowered.IsNodeOf flat.now node }
    ensures grows { OnOk result (stands.Grows builder.old builder.new) }
    ensures slot { IfOk result (λ o. IfSome o (λ slot. stands.Stands flat.now (pieces.front_of layout.now.given)
        builder.new slot node.width
        (stands.operation_number flat.now (pieces.front_of layout.now.given) node.width node.operation))) }
{
    fits_law();
    match calculation(flat, slots, node) {
        Some(own) => {
            let calculation = with_ones(builder, node.width, own)?;
            Ok(Some(builder.push(step_of(node.width, calculation))?))
        }
        None => Ok(None),
    }
}

// The slot of bits of a node from a place on; none where the node has none yet.
fn selected(
    flat: &Flat,
    layout: &Layout,
    slots: &[Option<Slot>],
    builder: &mut Builder,
    node: Node,
    of: u32,
    place: Index,
) -> Result<Option<Slot>, NoMemory>
    requires layout { pieces.IsLaidOut flat.now layout.now }
    requires begins { stands.Begins (pieces.front_of layout.now.given) builder.old }
    requires nodes { stands.NodesStand flat.now (pieces.front_of layout.now.given) builder.old slots.now }
    requires node { lowered.IsNodeOf flat.now node }
    requires select { node.operation ≡ o.Select of place }
    ensures grows { OnOk result (stands.Grows builder.old builder.new) }
    ensures slot { IfOk result (λ o. IfSome o (λ slot. stands.Stands flat.now (pieces.front_of layout.now.given)
        builder.new slot node.width
        (stands.operation_number flat.now (pieces.front_of layout.now.given) node.width node.operation))) }
{
    if let Some(from) = constant_place(flat, place) {
        if let Some(operand) = operand(flat, slots, of) {
            if u64::from(from) + u64::from(node.width) <= u64::from(operand.width) {
                return Ok(Some(cut(builder, operand, from, node.width)?));
            }
        }
    }
    calculated(flat, layout, slots, builder, node)
}

// The slot of a node; none where a node that it reads has none yet.
fn lowered(
    flat: &Flat,
    layout: &Layout,
    slots: &[Option<Slot>],
    builder: &mut Builder,
    node: Node,
) -> Result<Option<Slot>, NoMemory>
    requires layout { pieces.IsLaidOut flat.now layout.now }
    requires begins { stands.Begins (pieces.front_of layout.now.given) builder.old }
    requires nodes { stands.NodesStand flat.now (pieces.front_of layout.now.given) builder.old slots.now }
    requires node { lowered.IsNodeOf flat.now node }
    ensures grows { OnOk result (stands.Grows builder.old builder.new) }
    ensures slot { IfOk result (λ o. IfSome o (λ slot. stands.Stands flat.now (pieces.front_of layout.now.given)
        builder.new slot node.width
        (stands.operation_number flat.now (pieces.front_of layout.now.given) node.width node.operation))) }
{
    if let Some(other) = same_as(flat, node) {
        return Ok(slot_of(slots, other));
    }
    match node.operation {
        Operation::Bits { range } => Ok(bits(flat, layout, slots, builder, range)?),
        Operation::Select { of, place } => Ok(selected(
            flat, layout, slots, builder, node, of, place,
        )?),
        _ => Ok(calculated(flat, layout, slots, builder, node)?),
    }
}

// Gives the node of this number, if there is one, a slot, if those that it reads have theirs.
fn give(
    flat: &Flat,
    layout: &Layout,
    slots: &mut [Option<Slot>],
    builder: &mut Builder,
    number: u32,
) -> Result<(), NoMemory>
    requires layout { pieces.IsLaidOut flat.now layout.now }
    requires begins { stands.Begins (pieces.front_of layout.now.given) builder.old }
    requires nodes { stands.NodesStand flat.now (pieces.front_of layout.now.given) builder.old slots.old }
    requires count { length slots.old ≡ length flat.now.nodes }
    ensures begins { OnOk result (stands.Begins (pieces.front_of layout.now.given) builder.new) }
    ensures nodes { OnOk result (stands.NodesStand flat.now (pieces.front_of layout.now.given) builder.new slots.new) }
{
    values_law();
    let number = number as usize;
    if number >= slots.len() {
        return Ok(());
    }
    let slot = lowered(flat, layout, slots, builder, flat.nodes()[number])?;
    slots[number] = slot;
    Ok(())
}

/// Gives nodes slots, one after another in an order that is given. One that comes before one that it reads has none.
pub(crate) fn give_all(
    flat: &Flat,
    layout: &Layout,
    slots: &mut [Option<Slot>],
    builder: &mut Builder,
    order: &[u32],
) -> Result<(), NoMemory>
    requires layout { pieces.IsLaidOut flat.now layout.now }
    requires begins { stands.Begins (pieces.front_of layout.now.given) builder.old }
    requires nodes { stands.NodesStand flat.now (pieces.front_of layout.now.given) builder.old slots.old }
    requires count { length slots.old ≡ length flat.now.nodes }
    ensures begins { OnOk result (stands.Begins (pieces.front_of layout.now.given) builder.new) }
    ensures nodes { OnOk result (stands.NodesStand flat.now (pieces.front_of layout.now.given) builder.new slots.new) }
{
    for number in order {
        give(flat, layout, slots, builder, *number)?;
    }
    Ok(())
}

/// A program with steps of nodes, and the slots of the nodes.
#[derive(Drop)]
pub(crate) struct Made {
    pub(crate) builder: Builder,
    pub(crate) slots: Vec<Option<Slot>>,
}

// No slot for each of so many nodes.
fn no_slots(alloc: Global, count: usize) -> Result<Vec<Option<Slot>>, AllocError>
    ensures count { IfOk result (λ v. length v.items ≡ count) }
    ensures none { IfOk result (λ v. (n : ℕ) → slice_index_or v.items n None ≡ None) }
{
    let mut slots = Vec::new(alloc);
    for _ in 0..count {
        slots.push(None)?;
    }
    Ok(slots)
}

/// The steps of the nodes, one after another in an order that is given.
pub(crate) fn all_nodes(
    alloc: Global,
    flat: &Flat,
    layout: &Layout,
    order: &[u32],
) -> Result<Made, NoMemory>
    requires { pieces.IsLaidOut flat.now layout.now }
    ensures begins { IfOk result (λ m. stands.Begins (pieces.front_of layout.now.given) m.builder) }
    ensures count { IfOk result (λ m. length m.slots.items ≡ length flat.now.nodes) }
    ensures nodes { IfOk result
        (λ m. stands.NodesStand flat.now (pieces.front_of layout.now.given) m.builder m.slots.items) }
{
    let mut builder = Builder::new(alloc, layout.given.narrow, layout.given.wide)?;
    let mut slots = no_slots(alloc, flat.nodes().len())?;
    give_all(flat, layout, slots.as_mut_slice(), &mut builder, order)?;
    Ok(Made { builder, slots })
}
