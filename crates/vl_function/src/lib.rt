//! Functions.
//!
//! Below: `vl_header` and `vl_declaration` (parts of declarations), `vl_statement` (statements), `vl_simple` (names),
//! `vl_read` (what a reader promises, lists with commas), `vl_tree` (tokens, trees, grammar).
//! Above: the readers of items, which take `read_function`.
//! Promise: `read_function` keeps the promise of `vl_read` for any tokens that may follow a function.
//! Not said: that memory is enough.
#![tactic(auto)]

mod function;
mod lists;

pub use function::read_function;
pub use lists::FunctionPorts;
