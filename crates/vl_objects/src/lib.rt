//! The nets and variables of a scope, one of two declarations where a direction and a net or a variable make one.
//!
//! Below: `vl_repeats` (which declarations count), `vl_span` (ranges), `vl_names`, `vl_design` (what an object is). Above: what
//! numbers a design's signals and counts them.
//! Promise: `objects` gives the objects of a scope in order of text, as `vl_design` says.
//! The time is linear, as far as hashing goes.
//! Not said: that memory is enough.
#![tactic(auto)]

pub mod object;
pub mod partner;
