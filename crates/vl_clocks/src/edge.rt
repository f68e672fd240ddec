//! Names behind `posedge`.

ghost use Rattle.std.specs.Prelude.{◌≡◌, OnOk, map};
ghost use Rattle.vl_tree.specs.SyntaxView as view;
ghost use Rattle.vl_design.specs.Lists.{each_of};
ghost use Rattle.vl_views.specs.Blocks.{items_of};
ghost use Rattle.vl_clocks.specs.Names.{Adds, listed, clock_names_by, clock_names_in, edge_names, event_names};

use crate::name::{plain_name, push};
use std::alloc::AllocError;
use vl_tree::expression::Name;
use vl_tree::item::{Edge, Event, Item, Sensed};

/// Appends the names behind `posedge` in the items of a scope.
#[cycle(items)]
pub fn gather<'a>(items: &'a [Item], names: &mut Vec<&'a Name>) -> Result<(), AllocError>
    ensures { let is = items_of items.now in
        OnOk result (Adds (clock_names_in is) names.old.items names.new.items) }
{
    for item in items {
        gather_one(item, names)?;
    }
    Ok(())
}

#[cycle(items)]
fn gather_one<'a>(item: &'a Item, names: &mut Vec<&'a Name>) -> Result<(), AllocError>
    ensures { let i = view.item item.now in
        OnOk result (Adds (clock_names_by i) names.old.items names.new.items) }
{
    match item {
        Item::Always(_, event, _) => of_event(event, names),
        Item::Region(_, items) => gather(items.as_slice(), names),
        Item::Initial(_, _) => Ok(()),
        Item::Function(_) => Ok(()),
        Item::Parameter(_, _, _, _, _) => Ok(()),
        Item::Directed(_, _) => Ok(()),
        Item::Nets(_, _, _, _) => Ok(()),
        Item::Registers(_, _, _, _) => Ok(()),
        Item::Integer(_, _) => Ok(()),
        Item::Genvar(_, _) => Ok(()),
        Item::Continuous(_, _) => Ok(()),
        Item::Instances(_, _, _) => Ok(()),
        Item::GenerateLoop(_, _, _) => Ok(()),
        Item::GenerateIf(_, _) => Ok(()),
    }
}

fn of_event<'a>(event: &'a Event, names: &mut Vec<&'a Name>) -> Result<(), AllocError>
    ensures { let e = view.event event.now in
        OnOk result (Adds (event_names e) names.old.items names.new.items) }
{
    match event {
        Event::Sensed(all) => of_edges(all.as_slice(), names),
        Event::AnyRead => Ok(()),
        Event::AnyReadList => Ok(()),
    }
}

fn of_edges<'a>(all: &'a [Sensed], names: &mut Vec<&'a Name>) -> Result<(), AllocError>
    ensures { let es = map view.sensed all.now in
        OnOk result (Adds (each_of edge_names es) names.old.items names.new.items) }
{
    for one in all {
        push(names, edge_name(one))?;
    }
    Ok(())
}

// The name behind a `posedge`.
fn edge_name(one: &Sensed) -> Option<&Name>
    ensures { listed result ≡ edge_names (view.sensed one.now) }
{
    match one.edge {
        Edge::Positive(_) => plain_name(&one.signal),
        Edge::Negative(_) => None,
        Edge::No => None,
    }
}
