//! What is wrong with the declarations of one scope: names that are declared twice, ranges, and names of functions.
//!
//! Below: `vl_declares` (declarations), `vl_span` (ranges), `vl_names` (names that were met), `vl_design` (which faults these
//! are). Above: what tells the faults of a design's objects.
//! Promise: `find_repeats` says which declarations of a scope count, and tells the least fault of those that repeat a name;
//! `declarations_fault` tells the least fault of declarations by themselves, as `vl_design` says.
//! The time is linear, as far as hashing goes: no scope's names are gone through for each name.
//! Not said: that memory is enough.
#![tactic(auto)]

pub mod declaration;
pub mod repeats;
pub mod routine;
pub mod side;
