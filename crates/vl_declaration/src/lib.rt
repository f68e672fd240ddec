//! Declarations: signs and ranges, what a declaration names, and what an `always` waits for.
//!
//! Below: `vl_simple` (names, targets), `vl_expr` (expressions), `vl_read` (what a reader promises, lists with commas),
//! `vl_tree` (tokens, trees, grammar).
//! Above: `vl_header` (connections and headers), `vl_function`, and the readers of items.
//! Promise: one reader stands for each rule, and keeps the promise of `vl_read` for any tokens that may follow. The rules
//! of `lists` are read with commas between them by `vl_read::commas::read_commas`. `proofs/Parts` says how the promise of
//! a rule is made from those of its parts.
//! Not said: that memory is enough.
#![tactic(auto)]

mod event;
mod lists;
mod named;
mod range;
mod token;

pub use event::read_event;
pub use lists::{Drives, Names, Nets, ValuedNames, Variables};
pub use named::{read_driven, read_net, read_value, read_variable};
pub use range::{Shape, read_range, read_shape, skip_key};
pub use token::{read_key, read_mark};
