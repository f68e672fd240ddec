//! Statements that hold no other, and the parts that rules of statements and items share: what an assignment writes, a
//! name with its value, an expression in parentheses, a label.
//!
//! Below: `vl_expr` (expressions), `vl_read` (what a reader promises, the place in a list of tokens), `vl_tree` (tokens,
//! trees, grammar).
//! Above: `vl_statement`, which reads the token that begins a statement (`start_of`) and calls the reader of that sort
//! from after it on.
//! Promise: one reader stands for each rule, and keeps the promise of `vl_read` for any tokens that may follow.
//! Not said: that memory is enough.
#![tactic(auto)]

mod parts;
mod simple;
mod start;
mod target;

pub use parts::{pass_colon, read_grouped, read_label, read_name, read_valued};
pub use simple::{read_assign, read_fatal, read_file_print, read_print, read_stop};
pub use start::{Start, start_of};
pub use target::read_target;
