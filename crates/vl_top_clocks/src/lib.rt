//! The clock names of a design as far as its top, and the top's data inputs.
//!
//! Below: `vl_clocks` (names behind `posedge`), `vl_joins` (what is connected to ports), `vl_sight` (what names stand for), `vl_paths`
//! (sets of paths), `vl_loop_paths` (signals), `vl_limits`, `vl_design` (which clocks and inputs these are). Above: what tells the faults
//! of a design's objects, and what numbers its inputs.
//! Promise: `clocks` gives a set that has the paths of a design's clock names, as `vl_design` says; `data_inputs` gives the inputs of the
//! top that are none, and `inputs_fault` the first of them with which there are too many, or too many bits.
//! The time is linear, as far as hashing goes, and as scopes around a name are few.
//! Not said: that memory is enough.
#![tactic(auto)]

pub mod clocks;
pub mod inputs;
pub mod passed;
