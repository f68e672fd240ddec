//! Bits of a signal from an index that is the same in each moment, as nodes.
//!
//! Below: `vl_vectors` (bits from a place), `vl_sized` (whole numbers, places), `vl_nodes` (the builder of nodes), `vl_value` (where the bits
//! of a vector stand). Above: what makes nodes of expressions.
//! Promise: `bits_from` answers a node that is worth what `vl_value` says of `[i]`, `[a:b]`, `[b +: w]` and `[b -: w]`, and reads
//! those of the bits that lie in the signal, and no others.
//! Not said: that memory is enough.
#![tactic(auto)]

pub mod fixed;
