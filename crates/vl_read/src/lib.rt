//! Exact readers of tokens: what a reader promises against a grammar, how the promises of parts make that of a whole,
//! and the place in a list of tokens from which a reader reads on.
//!
//! Below: `vl_tree` (tokens, trees, grammar), `dt_core`. Above: `vl_expr` (expressions) and the readers of modules.
//! Promise: `specs/Reading` says what a reader answers: the one tree that its tokens are, up to where it ends; or the
//! least place such that no tree begins with the tokens up to it; or the first token that is too deep. `proofs/Pieces`,
//! `Fails`, `Tokens` and `Places` have the lemmas that don't depend on a grammar. The single tokens and `read_commas`,
//! a list of any rule's trees with commas, keep that promise.
//! Not said: that memory is enough.
#![tactic(auto)]

pub mod commas;
pub mod cursor;
pub mod fault;
pub mod lists;

pub use dt_core::limits::MAX_DEPTH;
