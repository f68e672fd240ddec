//! The names in sight while a design is built: which are constants, and which are a genvar's, scope over scope.
//!
//! Below: `vl_design` (what is in sight where), `vl_width` (constants), `vl_views` (items as plain trees). Above: what reads
//! constants, ranges and parameters of a scope, and what builds a design.
//! Promise: what frames tell of each name is what `vl_design` says is around: an object of a scope hides outer names in
//! the whole scope, a parameter is in sight behind its declaration, a function's names hide outer ones.
//! A name is looked up in a map for each scope of its module that lies around it.
//! Not said: that memory is enough.
#![tactic(auto)]

pub mod frame;
pub mod frames;
pub mod mark;
pub mod notes;
pub mod sight;
