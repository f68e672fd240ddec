//! The faults of phase 5 that the scopes of a design have each by itself, and the limit of their words.
//!
//! Below: `vl_connections` (faults of one scope), `vl_limits` (counts), `vl_scopes` (scopes), `vl_design` (which faults these
//! are). Above: what tells the least fault of a design's objects.
//! Promise: `scopes_fault` and `words_fault` tell the least fault of these kinds of all scopes, as `vl_design` says.
//! The time is linear in what the scopes declare, as far as hashing goes.
//! Not said: that memory is enough.
#![tactic(auto)]

ghost use Rattle.std.specs.Prelude.{◌≡◌, IfOk};
ghost use Rattle.std.specs.Option.{option_map};
ghost use Rattle.dt_core.specs.declared.limits.TheConstants.{MAX_WORDS};
ghost use Rattle.vl_tree.specs.declared.fault.FaultKind.TheVariants.{TooManyWords};
ghost use Rattle.vl_value.specs.Order.{least};
ghost use Rattle.vl_found.specs.View.{found};
ghost use Rattle.vl_design.specs.Lists.{each_of};
ghost use Rattle.vl_design.specs.ObjectFaults as design;
ghost use Rattle.vl_scopes.specs.Plain.{plain_scopes};
ghost use Rattle.vl_scope_faults.specs.Scopes.{HasScopeFault};

use dt_core::limits;
use std::alloc::{AllocError, Global};
use vl_connections::{block_fault, instance_fault, top_fault};
use vl_found::{Found, lesser};
use vl_limits::limit::Limit;
use vl_limits::words::add_words;
use vl_scopes::scope::{Origin, Scope};
use vl_tree::fault::FaultKind;

/// The least fault of declarations, headers and connections.
pub fn scopes_fault(alloc: Global, scopes: &[Scope<'_>]) -> Result<Option<Found>, AllocError>
    ensures { let ss = plain_scopes scopes.now in
        IfOk result (λ f. option_map found f ≡ least (each_of design.scope_faults ss)) }
{
    let mut fault = None;
    for scope in scopes {
        let found = scope_fault(alloc, scope)?;
        fault = lesser(fault, found);
    }
    Ok(fault)
}

// The least fault of one scope, whatever stands before it.
fn scope_fault(alloc: Global, scope: &Scope<'_>) -> Result<Option<Found>, AllocError>
    ensures { let s = scope.now in
        IfOk result (λ f. HasScopeFault s f) }
{
    let declared = scope.declared.as_slice();
    match scope.origin {
        Origin::Top(parent) => top_fault(alloc, declared, parent),
        Origin::Instance(parent, instance) => {
            instance_fault(alloc, declared, parent, &instance.binds)
        }
        Origin::Block(_) => block_fault(alloc, declared),
    }
}

/// TooManyWords at the first memory with which there are more words than a design may have.
pub fn words_fault(alloc: Global, scopes: &[Scope<'_>]) -> Result<Option<Found>, AllocError>
    ensures { let ss = plain_scopes scopes.now in
        let place = design.beyond MAX_WORDS 0 (each_of design.words_of ss) in
        IfOk result (λ f. option_map found f ≡ least (design.told place TooManyWords)) }
{
    let mut limit = Limit::new(limits::MAX_WORDS);
    for scope in scopes {
        add_words(alloc, &mut limit, scope.declared.as_slice())?;
    }
    Ok(limit.fault(FaultKind::TooManyWords))
}
