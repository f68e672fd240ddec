//! Plain names that are connected to the ports of an instance.
//!
//! Below: `vl_clocks` (plain names), `vl_connections` (ports), `vl_design` (what is connected, and which clocks are passed up).
//! Above: what tells the clock names of a design's top.
//! Promise: `joins` lists the ports to which plain names are connected; of these `vl_design` passes clocks up.
//! The time is linear.
//! Not said: that memory is enough.
#![tactic(auto)]

ghost use Rattle.std.specs.Prelude.{◌≡◌, List, OnOk, IfOk, drop, map};
ghost use Rattle.std.specs.Option.{option_map};
ghost use Rattle.vl_tree.specs.SyntaxView as view;
ghost use Rattle.vl_value.specs.Constant.{Sight};
ghost use Rattle.vl_value.specs.Paths.{Path};
ghost use Rattle.vl_design.specs.Lists.{each_of};
ghost use Rattle.vl_design.specs.Scopes.{Level};
ghost use Rattle.vl_design.specs.Clocks as design;
ghost use Rattle.vl_width.specs.Lists.{exprs_of};
ghost use Rattle.vl_clocks.specs.Names.{listed};
ghost use Rattle.vl_joins.specs.Joins.{AddsJoins, connected_by, joins_at, joins_bound, joins_of, joins_with, listed_join, passed_by, plain_join};

use std::alloc::{AllocError, Global};
use vl_clocks::name::plain_name;
use vl_connections::header::{port_name, ports_of};
use vl_tree::expression::{Expr, Name};
use vl_tree::item::{Binds, Module, NamedBind, Port};

/// A port of an instance, and the plain name that is connected to it.
#[derive(Clone, Copy)]
pub struct Join<'a> {
    pub port: &'a Name,
    pub name: &'a Name,
}

/// The ports of an instance of a module to which plain names are connected, in the order in which they are.
pub fn joins<'a>(
    alloc: Global,
    parent: &'a Module,
    binds: &'a Option<Binds>,
) -> Result<Vec<Join<'a>>, AllocError>
    ensures { let cs = design.connected (view.module_tree parent.now) (option_map view.binds binds.now) in
        IfOk result (λ js. (clocks : List Path) (l : Level) (s : Sight)
        → each_of (passed_by clocks l s) (map plain_join js.items) ≡ design.passed_up clocks l s cs) }
{
    let mut joins = Vec::new(alloc);
    gather(ports_of(parent), binds, &mut joins)?;
    Ok(joins)
}

// Appends the joins of an instance of a module with these ports.
fn gather<'a>(
    ports: &'a [Port],
    binds: &'a Option<Binds>,
    joins: &mut Vec<Join<'a>>,
) -> Result<(), AllocError>
    ensures { let cs = connected_by (map view.port ports.now) (option_map view.binds binds.now) in
        OnOk result (AddsJoins (joins_of cs) joins.old.items joins.new.items) }
{
    match binds {
        Some(inner) => bound(ports, inner, joins),
        None => Ok(()),
    }
}

fn bound<'a>(
    ports: &'a [Port],
    binds: &'a Binds,
    joins: &mut Vec<Join<'a>>,
) -> Result<(), AllocError>
    ensures { let b = Rattle.std.specs.Prelude.Some (view.binds binds.now) in
        let cs = connected_by (map view.port ports.now) b in
        OnOk result (AddsJoins (joins_of cs) joins.old.items joins.new.items) }
{
    match binds {
        Binds::Ordered(all) => in_order(ports, all.as_slice(), joins),
        Binds::ByName(all) => by_name(all.as_slice(), joins),
    }
}

fn in_order<'a>(
    ports: &'a [Port],
    all: &'a [Expr],
    joins: &mut Vec<Join<'a>>,
) -> Result<(), AllocError>
    ensures { let cs = design.in_order (map view.port ports.now) (exprs_of all.now) in
        OnOk result (AddsJoins (joins_of cs) joins.old.items joins.new.items) }
{
    for k in 0..ports.len() {
        push(joins, join_at(&ports[k], all, k))?;
    }
    Ok(())
}

// A port with the expression of a place, if there is one and it is a plain name.
fn join_at<'a>(port: &'a Port, all: &'a [Expr], place: usize) -> Option<Join<'a>>
    ensures { let es = exprs_of (drop place all.now) in
        listed_join result ≡ joins_at (view.port port.now) es }
{
    match all.get(place) {
        Some(e) => joined(port_name(port), plain_name(e)),
        None => None,
    }
}

fn by_name<'a>(binds: &'a [NamedBind], joins: &mut Vec<Join<'a>>) -> Result<(), AllocError>
    ensures { let cs = design.by_names (map view.named_bind binds.now) in
        OnOk result (AddsJoins (joins_of cs) joins.old.items joins.new.items) }
{
    for bind in binds {
        push(joins, join_by(bind))?;
    }
    Ok(())
}

fn join_by(bind: &NamedBind) -> Option<Join<'_>>
    ensures { listed_join result ≡ joins_bound (view.named_bind bind.now) }
{
    match &bind.value {
        Some(e) => joined(&bind.name, plain_name(e)),
        None => None,
    }
}

fn joined<'a>(port: &'a Name, name: Option<&'a Name>) -> Option<Join<'a>>
    ensures { let x = view.name port.now in
        listed_join result ≡ joins_with x.text (listed name.entry) }
{
    let name = name?;
    Some(Join { port, name })
}

// Appends a join, if there is one.
fn push<'a>(joins: &mut Vec<Join<'a>>, join: Option<Join<'a>>) -> Result<(), AllocError>
    ensures { OnOk result (AddsJoins (listed_join join.entry) joins.old.items joins.new.items) }
{
    let Some(one) = join else {
        return Ok(());
    };
    match joins.push(one) {
        Ok(()) => Ok(()),
        Err(_) => Err(AllocError),
    }
}
