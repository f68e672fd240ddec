//! Numbers and bits of vectors as nodes, at the size of the expression in which they stand.
//!
//! Below: `vl_nodes` (the builder of nodes), `vl_width` (numbers, sizes), `vl_value` (what an expression means and reads), `bit_ops`
//! (operators). Above: what makes nodes of expressions.
//! Promise: `at_size`, `number_at` and `bits_at` answer a node that is worth what `vl_value` says, at a size, of a node, of a number, and
//! of bits of a signal from a fixed place upward, and that reads what is said there bit by bit: where some of those bits lie outside
//! the signal, the node reads those inside alone.
//! Not said: that memory is enough.
#![tactic(auto)]

pub mod vectors;
