//! A builder of nodes: a call for each operation of a numbered design.
//!
//! Below: `netlist` (nodes, and what they are worth and read), `bit_ops` (operators). Above: what makes nodes of
//! expressions, of drivers and of next states.
//! Promise: each call adds nodes that fit those before them, and answers one that in every well-formed design that goes
//! on from there, over all values that fit, is worth what the operation makes of its operands' values, and reads bits of
//! exactly the ranges that it or its operands read (`specs/Nodes`, `specs/Calls`). Nodes that were there stay as they were.
//! Not said: that memory is enough; more than 2^32 - 1 nodes count as out of memory.
#![tactic(auto)]

pub mod made;
pub mod nodes;
mod widths;
