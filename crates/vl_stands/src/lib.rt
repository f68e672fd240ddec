//! When a numbered design of a hierarchy stands for a module: definitions and laws alone.
//!
//! Below: `vl_meaning` (what a module means), `netlist` and `design_names` (the design, its run, what it shows), `one_block`
//! (whose designs do), `flat_ir`. Above: `vl_front`, whose contract cites the definition, and `dessert`, whose run is the
//! module's by the law.
//! `specs/StandsFor` says it in the words of the design: its inputs, scopes, assertions and cycles are the module's.
//! Promise: what `one_block` makes of a design that stands for a module, stands for it; and each run of a design that stands
//! for a module has the module's states, shows what the module shows, and fires what the module fires, line by line.
#![tactic(auto)]

ghost use Rattle.vl_stands.specs.Laws.{SameStands, RunsAreSame};

/// The design of a hierarchy that is the same as one of one clocked block stands for the module that this one stands for.
pub fn stands_law()
    ensures { SameStands }
{}

/// Over rows that fit, each run of a design that stands for a module is the module's.
pub fn same_run_law()
    ensures { RunsAreSame }
{}
