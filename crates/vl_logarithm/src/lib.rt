//! `$clog2` of a node.
//!
//! Below: `vl_nodes` (the builder of nodes), `vl_value` (what `$clog2` is worth). Above: what makes nodes of expressions.
//! Promise: `logarithm` answers a node of 32 bits that is worth what `vl_value` says of `$clog2` of a node's value, and reads what that
//! reads: a choice for each bit of the node.
//! Not said: that memory is enough.
#![tactic(auto)]

pub mod logarithm;
