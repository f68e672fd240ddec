//! Statements: the tree of the statement that a list of tokens begins with, or the first token at which none goes on.
//!
//! Below: `vl_simple` (statements that hold no other, parts of rules), `vl_expr` (expressions), `vl_read` (what a reader
//! promises, the place in a list of tokens), `vl_tree` (tokens, trees, grammar).
//! Above: the readers of items, which take `read_statement`, `read_loop` and the parts.
//! Promise: one reader stands for each rule, and keeps the promise of `vl_read` for any tokens that may follow. After a
//! statement no `else` may follow, so that an `else` belongs to the nearest `if` that has none.
//! Recursion is at most 200 constructs deep: branches of `else if` are lists.
//! Not said: that memory is enough.
#![tactic(auto)]

mod header;
mod statement;

pub use header::read_loop;
pub use statement::read_statement;
pub use vl_simple::{read_grouped, read_label, read_name, read_target, read_valued};
