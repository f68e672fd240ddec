//! The scopes that are open so far, and how one more is opened: that of an instance and that of a block.
//!
//! Below: `vl_build` (how far a design is built), `vl_scopes` (scopes), `vl_members` (what stands at the beginning of one), `vl_tokens`
//! (expanded tokens), `vl_design` (what a text asks for). Above: the walk through the modules of a source.
//! Promise: each call does exactly what a list of requests of `vl_design` asks for (`Walks` in `specs/Walking`): it counts, keeps the least
//! fault, and appends scopes, and behind the end it does nothing.
//! Not said: that memory is enough.
#![tactic(auto)]

pub mod block;
pub mod instance;
pub mod plain;
pub mod walk;
