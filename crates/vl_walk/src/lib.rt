//! The walk through the modules of a source, from its top down: every instance and generate scope in preorder, with the faults on the way.
//!
//! Below: `vl_opening` (what was walked through so far, and how a scope is opened), `vl_generate` (blocks, turns and numbers), `vl_top`
//! (modules by name), `vl_design` (what a text asks for). Above: what gives the scopes of a source.
//! Promise: each call hears exactly what `vl_design` says that its items, its block or its instance asks for, and leaves the names in sight as
//! they are behind it. Behind the end it does nothing more, so that each text is walked through in bounded work.
//! How it ends: instances lie at most `depth` in one another, and in a module each call goes into a smaller part of its tree
//! (`proofs/Weights`).
//! Not said: that memory is enough.
#![tactic(auto)]

pub mod modules;
pub mod supply;
pub mod top;
pub mod walking;
