//! What a name stands for in a scope of a design, and in the body of a function of one.
//!
//! Below: `vl_objects` (nets and variables), `vl_repeats` (which declarations count), `vl_names` (numbers by name), `vl_scopes` (scopes),
//! `vl_design` (what is in sight). Above: what tells loop variables and clocks, and what reads names.
//! Promise: `Sights::find` tells what a name stands for from a scope, `Sights::find_inside` from the body of a function, as `vl_design`
//! says; `Sights::object` and `Sights::object_inside` tell where the net or variable is declared that it stands for.
//! The time is one look-up for each scope from the innermost outward, as far as hashing goes.
//! Not said: that memory is enough.
#![tactic(auto)]

pub mod body;
pub mod first;
pub mod names;
pub mod sights;
pub mod thing;
