//! Expressions that have to be constant while a design is built, and ranges: what they are among the names in sight, and
//! which fault they have.
//!
//! Below: `vl_frames` (names in sight), `vl_width` (what a constant is worth), `vl_span` (ranges), `vl_design` (what is
//! needed, and what rests on a fault). Above: what reads parameters and declarations, and what builds a design.
//! Promise: `evaluate` gives an expression's first token, its meaning exactly where it is a constant without a fault, and
//! its fault exactly where it has one and rests on no faulty constant; `span_of` gives a range and the least of its faults.
//! Not said: that memory is enough.
#![tactic(auto)]

pub mod mentions;
pub mod range;
pub mod value;
