//! Sizes and constants: what a constant expression is worth among the names in sight, or why it is none.
//!
//! Below: `vl_value` (what an expression means, which faults it has), `vl_tree` (trees), `bit_ops` (operators).
//! Above: what makes the instances of a design, resolves its names and builds the numbered design.
//! Promise: `constant` gives the width, the sign and the value that `vl_value` defines, exactly where the expression is
//! constant and has no fault; else the one fault of phase 4 at its first token. `settled_constant` gives it, or none.
//! A tree is gone through once: what has a size of its own is a number at once, and what is left is the value at each
//! size of the context (`Term`). Chains and choices are gone through by loops.
//! Not said: that memory is enough.
#![tactic(auto)]

pub mod constants;
pub mod known;
pub mod names;
pub mod number;
pub mod operands;
pub mod place;
pub mod shape;
pub mod size;
pub mod term;
pub mod walk;
