//! The memories and the functions of a design, in the order in which they are numbered: by scope in preorder, then by text.
//!
//! Below: `vl_scopes` (scopes), `vl_repeats` (which declarations count), `vl_objects` (ranges), `vl_design` (what a design holds). Above: what
//! numbers a design.
//! Promise: `memories` and `callables` list exactly what `vl_design` says, in its order.
//! The time is linear in what the scopes declare, as far as hashing goes.
//! Not said: that memory is enough.
#![tactic(auto)]

pub mod callables;
pub mod memories;
