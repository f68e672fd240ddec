//! Operators of expressions as nodes, at the size at which they are evaluated.
//!
//! Below: `vl_vectors` (a node at a size), `vl_nodes` (the builder of nodes), `vl_width` (sizes), `operator_laws` (what operators give fits),
//! `bit_ops` (operators). Above: what makes nodes of expressions.
//! Promise: `unary_at`, `alike` and `shifted` answer a node of the size that is worth what the operator gives there, whatever width it has by
//! itself; `resized` the low bits of a node, with zeros above.
//! Not said: that memory is enough.
#![tactic(auto)]

pub mod operated;
