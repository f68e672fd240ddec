//! Ports of a header.

ghost use Rattle.std.specs.Prelude.{◌≡◌, [], IfOk, OnOk, map};
ghost use Rattle.std.specs.Option.{option_map};
ghost use Rattle.vl_tree.specs.SyntaxView as view;
ghost use Rattle.vl_value.specs.Order.{least};
ghost use Rattle.vl_found.specs.View.{found};
ghost use Rattle.vl_names.specs.Names.{has};
ghost use Rattle.vl_design.specs.Clocks as clocks;
ghost use Rattle.vl_design.specs.Scopes as scopes;
ghost use Rattle.vl_connections.specs.Connections.{AddsPorts, bare_by, bare_here, bare_name_of, named_by_borrow};

use std::alloc::{AllocError, Global};
use vl_found::{Found, lesser};
use vl_names::NameSet;
use vl_tree::expression::Name;
use vl_tree::fault::FaultKind;
use vl_tree::item::{Module, Port};

/// The ports of a module's header; none where it has none.
pub fn ports_of(parent: &Module) -> &[Port]
    ensures { map view.port result.now ≡ scopes.ports_of (view.module_tree parent.now) }
{
    match &parent.ports {
        Some(ports) => ports.as_slice(),
        None => &[],
    }
}

/// The name of a port of a header.
pub fn port_name(port: &Port) -> &Name
    ensures { view.name result.now ≡ clocks.port_name (view.port port.now) }
{
    match port {
        Port::Declared(_, name) => name,
        Port::Named(name) => name,
    }
}

// The name of a port without words.
fn bare_name(port: &Port) -> Option<&Name>
    ensures { named_by_borrow result ≡ bare_name_of (view.port port.now) }
{
    match port {
        Port::Declared(_, _) => None,
        Port::Named(name) => Some(name),
    }
}

/// Adds the names of a header's ports.
pub fn add_ports(alloc: Global, names: &mut NameSet, ports: &[Port]) -> Result<(), AllocError>
    ensures { let ps = map view.port ports.now in
        OnOk result (AddsPorts ps names.old names.new) }
{
    for port in ports {
        names.add(alloc, &port_name(port).text)?;
    }
    Ok(())
}

/// The least fault of a header of bare names, each of which is a port of one direction, which items declare: these names have
/// one.
pub fn header_fault(
    alloc: Global,
    directed: &NameSet,
    ports: &[Port],
) -> Result<Option<Found>, AllocError>
    ensures { let f = has directed.now in let ps = map view.port ports.now in
        IfOk result (λ g. option_map found g ≡ least (bare_by f [] ps)) }
{
    let mut names = NameSet::new(alloc);
    let mut fault = None;
    for port in ports {
        let Some(name) = bare_name(port) else {
            return Ok(fault);
        };
        let is_known = names.has(&name.text);
        let is_directed = directed.has(&name.text);
        fault = lesser(fault, bare_fault(is_known, is_directed, name));
        names.add(alloc, &name.text)?;
    }
    Ok(fault)
}

// Duplicate at a bare name that is known; BadPort at one that has no direction.
fn bare_fault(is_known: bool, is_directed: bool, name: &Name) -> Option<Found>
    ensures { let x = view.name name.now in
        option_map found result ≡ least (bare_here is_known is_directed x) }
{
    if is_known {
        return Some(Found {
            place: name.place,
            kind: FaultKind::Duplicate,
        });
    }
    if is_directed {
        return None;
    }
    Some(Found {
        place: name.place,
        kind: FaultKind::BadPort,
    })
}
