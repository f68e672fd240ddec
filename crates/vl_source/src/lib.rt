//! Sources: the tree of a list of tokens, or the first token at which no source goes on.
//!
//! Below: `vl_item` (items that hold no others), `vl_header` (headers of modules), `vl_statement` (headers of loops),
//! `vl_simple` (labels, expressions in parentheses), `vl_read` (what a reader promises), `vl_tree` (tokens, trees,
//! grammar).
//! Promise: `parse_source` gives the one source that the tokens are, all of them; or the least place such that no source
//! begins with the tokens up to it, the number of the tokens where only the end is bad; or the first token that is deeper
//! than 200. One reader stands for each rule, and keeps the promise of `vl_read` for any tokens that may follow.
//! Recursion is at most 200 constructs deep: modules, items and branches of `else if` are lists.
//! Not said: that memory is enough.
#![tactic(auto)]

ghost use Rattle.std.specs.Prelude.{◌<◌, ◌-◌, ◌^◌, length, IfOk};
ghost use Rattle.vl_tree.specs.Token.{all_coded};
ghost use Rattle.vl_source.specs.Parsed.{Parses, IsOnly};

mod items;
mod laws;
mod module;

use crate::module::read_modules;
pub use laws::refusal_law;
use std::alloc::Global;
use vl_read::cursor::Cursor;
use vl_read::fault::Fault;
pub use vl_read::fault::SynFault;
use vl_tree::item::Source;
use vl_tree::token::Token;

/// The source that the tokens are (IEEE 1364-2005, A.1.2), numbered from 0.
///
/// `At` gives the least number such that no source begins with the tokens up to it, or the number of the tokens where
/// only the end is bad; no token before it is deeper than 200. `Deep` gives the first token that stands at depth 201.
/// `Memory` says nothing.
pub fn parse_source(alloc: Global, tokens: &[Token]) -> Result<Source, SynFault>
    requires { length tokens.now < 2 ^ 32 - 1 }
    ensures parses { Parses (all_coded tokens.now) result }
    ensures only { IfOk result (λ s. IsOnly (all_coded tokens.now) s) }
{
    match read_modules(alloc, Cursor::over(tokens)) {
        Ok((modules, rest)) => {
            let left = rest.left();
            if left == 0 {
                Ok(Source { modules })
            } else {
                Err(Fault::At(left).told(tokens.len()))
            }
        }
        Err(fault) => Err(fault.told(tokens.len())),
    }
}
