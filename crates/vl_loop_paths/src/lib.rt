//! The loop variables of a design by their paths, and which of its nets and variables are signals.
//!
//! Below: `vl_loops` (names of loops), `vl_sight` (what a name stands for), `vl_paths` (sets of paths), `vl_objects`, `vl_limits`,
//! `vl_design` (which paths these are). Above: what tells the faults of a design's objects, and what numbers its signals.
//! Promise: `loop_variables` gives a set that has the paths of a design's loop variables, as `vl_design` says; `signals` gives those of
//! a scope's nets and variables that are none, and `signals_fault` the first signal of all scopes with which there are too many.
//! The time is linear, as far as hashing goes, and as scopes around a name are few.
//! Not said: that memory is enough.
#![tactic(auto)]

pub mod loops;
pub mod names;
pub mod signals;
