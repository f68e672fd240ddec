//! Law of paths: no two signals, memories, functions and variables of the design of a source have one path.
//!
//! Below: `vl_scope_paths` (no two scopes have one path), `vl_design` (which design a source is), `vl_store` (what it means that paths are
//! distinct). Above: what makes the numbered design of a source.
//! Promise: `paths_law`. It needs no premise but that the source is a design: names of a scope that clash are a fault.
#![tactic(auto)]

ghost use Rattle.vl_path_laws.specs.Laws.{PathsLaw};

/// No two signals, memories, functions, loop variables and variables of functions of the design of a source have one path.
pub fn paths_law()
    ensures { PathsLaw }
{}
