//! Law of the paths of scopes: no two scopes of the design of a source have one path.
//!
//! Below: `vl_design` (which design a source is). Above: `vl_path_laws` (paths of what scopes declare).
//! Promise: `scopes_law`. It needs no premise but that the source is a design: labels and instances of one name are a fault, turns of a loop
//! have different numbers, since one that came back would never end, and constructs without a label are numbered.
#![tactic(auto)]

ghost use Rattle.vl_scope_paths.specs.Laws.{ScopesLaw};

/// No two scopes of the design of a source have one path.
pub fn scopes_law()
    ensures { ScopesLaw }
{}
