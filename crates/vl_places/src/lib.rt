//! Bits of a signal from an index that varies, as nodes.
//!
//! Below: `vl_nodes` (the builder of nodes), `vl_width` (shapes), `vl_value` (where the bits of a vector stand), `bit_ops` (operators).
//! Above: what makes nodes of expressions.
//! Promise: `bits_by` answers a node that is worth what `vl_value` says of `[i]`, `[b +: w]` and `[b -: w]`, and reads the whole vector
//! and what the index reads. An index of more than 64 bits is clamped first, which changes nothing, since so far away all is outside.
//! `node_bits_by` does the same with bits of a node, such as a memory's word.
//! Not said: that memory is enough.
#![tactic(auto)]

pub mod places;
