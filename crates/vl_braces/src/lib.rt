//! Nodes side by side: braces and copies.
//!
//! Below: `vl_nodes` (the builder of nodes), `vl_value` (what braces and copies are worth). Above: what makes nodes of expressions.
//! Promise: `together` answers a node that is worth others side by side, the first leftmost (`specs/Braces`), and reads what they read;
//! `copies` one that is worth so many copies of another, as `vl_value` says, and reads what that reads.
//! Not said: that memory is enough.
#![tactic(auto)]

pub mod braces;
