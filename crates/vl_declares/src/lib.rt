//! What the items of a scope declare, in order of text, with the faults of the ranges and parameters in it.
//!
//! Below: `vl_parameters` (what a parameter is worth), `vl_constants` (ranges), `vl_design` (what an item declares). Above:
//! what builds a design.
//! Promise: each call appends to a scope's declarations what `vl_design` says that such an item declares among the constants
//! in sight, and tells the least fault that it needs constants for.
//! Not said: that memory is enough.
#![tactic(auto)]

pub mod declared;
pub mod function;
pub mod header;
pub mod header_ports;
pub mod inputs;
pub mod item;
pub mod names;
pub mod ranged;
pub mod values;
pub mod variables;
