//! Numbers of the paths of a design's scopes, and sets of paths by these numbers.
//!
//! Below: `vl_scopes` (scopes), `vl_names` (sets of names), `vl_value` (what a path is), `vl_design` (which scopes there are). Above: what
//! tells loop variables, clocks and signals by their paths.
//! Promise: two scopes have one number exactly where they have one path, which may be where a design has a fault; the body of a function
//! has the number of the scopes of its path, if there are any. A set has the paths that were added and no others.
//! The time is linear in what the scopes' names spell, as far as hashing goes; a look-up in a set takes constant time.
//! Not said: that memory is enough.
#![tactic(auto)]

pub mod key;
pub mod numbers;
pub mod set;
