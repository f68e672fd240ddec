//! What is wrong with the ports of a module and with the connections of an instance, and with the declarations of a scope
//! together with these.
//!
//! Below: `vl_repeats` (declarations of a scope), `vl_names` (names that were met), `vl_design` (which faults these are).
//! Above: what tells the faults of a design's objects.
//! Promise: `block_fault`, `top_fault` and `instance_fault` tell the least fault of a scope's declarations, its header and its
//! connections, as `vl_design` says, for what makes the scope.
//! The time is linear, as far as hashing goes.
//! Not said: that memory is enough.
#![tactic(auto)]

ghost use Rattle.std.specs.Prelude.{◌≡◌, Some, None, IfOk};
ghost use Rattle.std.specs.Option.{option_map};
ghost use Rattle.vl_tree.specs.SyntaxView as view;
ghost use Rattle.vl_value.specs.Order.{least};
ghost use Rattle.vl_found.specs.View.{found};
ghost use Rattle.vl_design.specs.Scopes.{block, instance_of};
ghost use Rattle.vl_declares.specs.Plain.{all_plain};
ghost use Rattle.vl_connections.specs.Connections.{HasInstanceFault, own_faults, scope_faults_of};

pub mod binds;
pub mod directed;
pub mod header;

use crate::binds::connections_fault;
use crate::directed::directed_names;
use crate::header::{header_fault, ports_of};
use std::alloc::{AllocError, Global};
use vl_declares::declared::Declared;
use vl_found::{Found, lesser};
use vl_repeats::declaration::declarations_fault;
use vl_repeats::repeats::find_repeats;
use vl_tree::item::{Binds, Module};

/// The least fault of the declarations of a generate block.
pub fn block_fault(alloc: Global, declared: &[Declared<'_>]) -> Result<Option<Found>, AllocError>
    ensures { let ds = all_plain declared.now in
        IfOk result (λ f. option_map found f ≡ least (scope_faults_of ds block)) }
{
    let fault = own_fault(alloc, declared)?;
    Ok(fault)
}

/// The least fault of the top's declarations and of its header.
pub fn top_fault(
    alloc: Global,
    declared: &[Declared<'_>],
    parent: &Module,
) -> Result<Option<Found>, AllocError>
    ensures { let ds = all_plain declared.now in let m = view.module_tree parent.now in
        IfOk result (λ f. option_map found f ≡ least (scope_faults_of ds (instance_of m None))) }
{
    let own = own_fault(alloc, declared)?;
    let directed = directed_names(alloc, declared)?;
    let header = header_fault(alloc, &directed, ports_of(parent))?;
    Ok(lesser(own, header))
}

/// The least fault of the declarations of an instance of a module, of the module's header and of the instance's connections.
pub fn instance_fault(
    alloc: Global,
    declared: &[Declared<'_>],
    parent: &Module,
    binds: &Option<Binds>,
) -> Result<Option<Found>, AllocError>
    ensures { let ds = all_plain declared.now in let m = view.module_tree parent.now in
        IfOk result (λ f. HasInstanceFault ds m (option_map view.binds binds.now) f) }
{
    let own = own_fault(alloc, declared)?;
    let directed = directed_names(alloc, declared)?;
    let header = header_fault(alloc, &directed, ports_of(parent))?;
    let connections = connections_fault(alloc, &directed, ports_of(parent), binds)?;
    Ok(lesser(own, lesser(header, connections)))
}

// The least fault of declarations, by themselves and of one name.
fn own_fault(alloc: Global, declared: &[Declared<'_>]) -> Result<Option<Found>, AllocError>
    ensures { let ds = all_plain declared.now in
        IfOk result (λ f. option_map found f ≡ least (own_faults ds)) }
{
    let repeated = find_repeats(alloc, declared)?.fault;
    let alone = declarations_fault(alloc, declared)?;
    Ok(lesser(repeated, alone))
}
