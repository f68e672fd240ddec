//! How many tokens parts of a tree have: what an instance adds to the expanded tokens, what a turn of a generate loop adds, and
//! how many expressions, statements, declarations and functions have. A count stops at the most that 32 bits hold, so that it is
//! defined for every tree.
//!
//! Below: `vl_tree` (trees), `vl_views` (items that hold others as plain trees), `vl_design` (which tokens count, and that a tree
//! has as many wherever it stands). Above: what builds a design.
//! Promise: each call gives the number of tokens that the tree has in its text, or the most that 32 bits hold where that is less.
//! The body of a generate loop counts with its turns alone.
#![tactic(auto)]

mod count;
pub mod declaration;
pub mod expression;
mod function;
pub mod item;
pub mod statement;
