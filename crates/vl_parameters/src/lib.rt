//! Parameters: their types, their worth, and the values that an instance gives them.
//!
//! Below: `vl_constants` (expressions that have to be constant, ranges), `vl_design` (what a parameter is worth). Above: what
//! declares the parameters of a scope, and what makes instances.
//! Promise: `parameter` gives a parameter's worth and the least of its faults, `given_by` what an instance gives and the
//! least fault of that, as `vl_design` says.
//! Not said: that memory is enough.
#![tactic(auto)]

pub mod given;
pub mod open;
pub mod worth;
