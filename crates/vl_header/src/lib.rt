//! Connections of instances, and headers of modules: directions, ports, parameters.
//!
//! Below: `vl_declaration` (signs, ranges, parts of a rule), `vl_simple` (names), `vl_expr` (expressions), `vl_read` (what a
//! reader promises, lists with commas), `vl_tree` (tokens, trees, grammar).
//! Above: `vl_function` and the readers of items and modules.
//! Promise: one reader stands for each rule, and keeps the promise of `vl_read` for any tokens that may follow. Where the
//! first of a list decides what the others are, as in a header, the list is refused at its first token.
//! Not said: that memory is enough.
#![tactic(auto)]

mod binds;
mod header;
mod lists;

pub use binds::{read_instance, read_named_bind, read_parameter_binds};
pub use header::{find_direction, read_closed_ports, read_directed, read_header_parameters};
pub use lists::{HeaderParameters, Instances, NamedBinds, NamedPorts, Ports};
