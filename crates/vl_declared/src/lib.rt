//! Items that declare names, and continuous assignments.
//!
//! Below: `vl_header` (directions), `vl_declaration` (signs, ranges, what a declaration names), `vl_read` (what a reader
//! promises, lists with commas), `vl_tree` (tokens, trees, grammar).
//! Above: the reader of items that hold no other item.
//! Promise: `read_declared` keeps the promise of `vl_read` for these items, and for any tokens that may follow. A token
//! that begins none of them is refused where it stands.
//! Not said: that memory is enough.
#![tactic(auto)]

mod declared;

pub use declared::read_declared;
