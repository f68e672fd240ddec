//! Connections of an instance.

ghost use Rattle.std.specs.Prelude.{◌≡◌, ◌||◌, [], IfOk, map};
ghost use Rattle.std.specs.Option.{option_map};
ghost use Rattle.vl_tree.specs.SyntaxView as view;
ghost use Rattle.vl_value.specs.Order.{least};
ghost use Rattle.vl_width.specs.Lists.{exprs_of};
ghost use Rattle.vl_found.specs.View.{found};
ghost use Rattle.vl_names.specs.Names.{has};
ghost use Rattle.vl_design.specs.ObjectFaults as faults;
ghost use Rattle.vl_connections.specs.Connections.{connected_by, named_by, named_here};

use crate::header::add_ports;
use std::alloc::{AllocError, Global};
use vl_found::{Found, lesser};
use vl_names::NameSet;
use vl_tree::expression::{Expr, Name};
use vl_tree::fault::FaultKind;
use vl_tree::item::{Binds, NamedBind, Port};
use vl_width::place::start;

/// The least fault of the connections of an instance whose module has these ports in its header, and a direction for these
/// names.
pub fn connections_fault(
    alloc: Global,
    directed: &NameSet,
    ports: &[Port],
    binds: &Option<Binds>,
) -> Result<Option<Found>, AllocError>
    ensures { let f = has directed.now in let ps = map view.port ports.now in
        let b = option_map view.binds binds.now in
        IfOk result (λ g. option_map found g ≡ least (connected_by f ps b)) }
{
    match binds {
        Some(inner) => {
            let fault = binds_fault(alloc, directed, ports, inner)?;
            Ok(fault)
        }
        None => Ok(None),
    }
}

fn binds_fault(
    alloc: Global,
    directed: &NameSet,
    ports: &[Port],
    binds: &Binds,
) -> Result<Option<Found>, AllocError>
    ensures { let f = has directed.now in let ps = map view.port ports.now in
        let b = Rattle.std.specs.Prelude.Some (view.binds binds.now) in
        IfOk result (λ g. option_map found g ≡ least (connected_by f ps b)) }
{
    match binds {
        Binds::Ordered(all) => Ok(ordered_fault(ports, all.as_slice())),
        Binds::ByName(all) => {
            let mut names = NameSet::new(alloc);
            add_ports(alloc, &mut names, ports)?;
            let fault = named_fault(alloc, &names, directed, all.as_slice())?;
            Ok(fault)
        }
    }
}

// BadPort at the first connection in order for which there is no port.
fn ordered_fault(ports: &[Port], all: &[Expr]) -> Option<Found>
    ensures { let ps = map view.port ports.now in
        option_map found result ≡ least (faults.connection_order_faults ps (exprs_of all.now)) }
{
    match all.get(ports.len()) {
        Some(e) => Some(Found {
            place: start(e),
            kind: FaultKind::BadPort,
        }),
        None => None,
    }
}

// The least fault of connections by name, where a port has a name of these, or a direction.
fn named_fault(
    alloc: Global,
    names: &NameSet,
    directed: &NameSet,
    binds: &[NamedBind],
) -> Result<Option<Found>, AllocError>
    ensures { let f = has names.now in let g = has directed.now in let bs = map view.named_bind binds.now in
        IfOk result (λ h. option_map found h ≡ least (named_by f g [] bs)) }
{
    let mut bound = NameSet::new(alloc);
    let mut fault = None;
    for bind in binds {
        let is_port = is_port(names, directed, &bind.name);
        let is_bound = bound.has(&bind.name.text);
        fault = lesser(fault, bind_fault(is_port, is_bound, &bind.name));
        bound.add(alloc, &bind.name.text)?;
    }
    Ok(fault)
}

// Whether a name is that of a port of a header, or has a direction.
fn is_port(names: &NameSet, directed: &NameSet, name: &Name) -> bool
    ensures { let x = view.name name.now in
        result ≡ (has names.now x.text || has directed.now x.text) }
{
    names.has(&name.text) || directed.has(&name.text)
}

// UnknownPort at a name that is no port's; BadPort at one that was bound before.
fn bind_fault(is_port: bool, is_bound: bool, name: &Name) -> Option<Found>
    ensures { let x = view.name name.now in
        option_map found result ≡ least (named_here is_port is_bound x) }
{
    if !is_port {
        return Some(Found {
            place: name.place,
            kind: FaultKind::UnknownPort,
        });
    }
    if !is_bound {
        return None;
    }
    Some(Found {
        place: name.place,
        kind: FaultKind::BadPort,
    })
}
