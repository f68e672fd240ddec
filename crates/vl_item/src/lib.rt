//! Items that hold no other items: declarations, `assign`, `always`, `initial`, functions, instances.
//!
//! Below: `vl_declared` (items that declare, `assign`), `vl_function` (functions), `vl_header` (connections), `vl_declaration`
//! (events, parts of a rule), `vl_statement` (statements), `vl_simple` (names), `vl_read` (what a reader promises, lists with
//! commas), `vl_tree` (tokens, trees, grammar).
//! Above: the reader of items that hold others, which takes `read_plain_item`.
//! Promise: `read_plain_item` keeps the promise of `vl_read`. After an item no `else` may follow, as after the statement that
//! some end with. A token that begins no such item, `generate`, `for` and `if` too, is refused where it stands.
//! Not said: that memory is enough.
#![tactic(auto)]

mod item;
mod start;

pub use item::read_plain_item;
