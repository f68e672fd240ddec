//! The least fault of phase 5 of a design.
//!
//! Below: `vl_scope_faults` (faults of each scope, and too many words), `vl_loop_paths` (too many signals), `vl_top_clocks` (too many data
//! inputs), `vl_sight` and `vl_paths`, on which these stand, `vl_design` (which faults these are). Above: what builds a design.
//! Promise: `object_fault` tells the least of all faults of phase 5 of a design's scopes, as `vl_design` says, or that there is none.
//! The time is linear, as far as hashing goes, and as scopes around a name are few.
//! Not said: that memory is enough.
#![tactic(auto)]

ghost use Rattle.std.specs.Prelude.{◌≡◌, IfOk};
ghost use Rattle.std.specs.Option.{option_map};
ghost use Rattle.vl_value.specs.Order.{least};
ghost use Rattle.vl_design.specs.Limits.{limits as most};
ghost use Rattle.vl_design.specs.ObjectFaults as design;
ghost use Rattle.vl_found.specs.View.{found};
ghost use Rattle.vl_scopes.specs.Plain.{plain_scopes};
ghost use Rattle.vl_sight.specs.Levels.{HoldsSights};
ghost use Rattle.vl_paths.specs.Numbers.{AreNumbers};
ghost use Rattle.vl_object_faults.specs.Faults.{least_with};

use std::alloc::{AllocError, Global};
use vl_found::{Found, lesser};
use vl_loop_paths::loops::loop_variables;
use vl_loop_paths::signals::signals_fault;
use vl_paths::numbers::PathNumbers;
use vl_scope_faults::{scopes_fault, words_fault};
use vl_scopes::scope::Scope;
use vl_sight::sights::Sights;
use vl_top_clocks::clocks::clocks;
use vl_top_clocks::inputs::inputs_fault;

/// The least fault of phase 5 of the scopes of a design: of declarations, ports and connections, and of its limits.
pub fn object_fault(alloc: Global, scopes: &[Scope<'_>]) -> Result<Option<Found>, AllocError>
    ensures { let ss = plain_scopes scopes.now in
        IfOk result (λ f. option_map found f ≡ least (design.object_faults most ss)) }
{
    let scopes_own = scopes_fault(alloc, scopes)?;
    let limits = limits_fault(alloc, scopes)?;
    Ok(lesser(scopes_own, limits))
}

// The least fault of the limits of a design.
fn limits_fault(alloc: Global, scopes: &[Scope<'_>]) -> Result<Option<Found>, AllocError>
    ensures { let ss = plain_scopes scopes.now in
        IfOk result (λ f. option_map found f ≡ least (design.limit_faults most ss)) }
{
    let words = words_fault(alloc, scopes)?;
    let sights = Sights::new(alloc, scopes)?;
    let numbers = PathNumbers::new(alloc, scopes)?;
    with_words(alloc, scopes, &sights, &numbers, words)
}

// The lesser of the fault of too many words, if there is one, and of those of too many signals and data inputs.
fn with_words<'a>(
    alloc: Global,
    scopes: &[Scope<'a>],
    sights: &Sights<'a>,
    numbers: &PathNumbers,
    words: Option<Found>,
) -> Result<Option<Found>, AllocError>
    requires sights { HoldsSights scopes.now sights.now }
    requires numbers { AreNumbers numbers.now (plain_scopes scopes.now) }
    ensures { let ss = plain_scopes scopes.now in
        IfOk result (λ f. option_map found f ≡ least_with ss (option_map found words)) }
{
    let loops = loop_variables(alloc, scopes, sights, numbers)?;
    let clocks = clocks(alloc, scopes, sights, numbers)?;
    let signals = signals_fault(alloc, scopes, numbers, &loops)?;
    let inputs = inputs_fault(alloc, scopes, numbers, &loops, &clocks)?;
    Ok(lesser(signals, lesser(words, inputs)))
}
