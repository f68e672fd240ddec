//! Expressions: the tree of the expression that a list of tokens begins with, or the first token at which none goes on.
//!
//! Below: `vl_read` (what a reader promises, the place in a list of tokens), `vl_tree` (tokens, trees, grammar),
//! `bit_ops` (operators).
//! Above: the readers of statements and modules, which take `read_expr`, `read_list`, `read_more` and `read_selects`.
//! Promise: `parse_expr` reads as far as the tokens begin an expression. It gives the one tree that they are up to
//! there; or the least place such that no expression begins with the tokens up to it; or the first token that is deeper
//! than 200. One reader stands for each rule, and keeps the promise of `vl_read` for any tokens that may follow.
//! Recursion is at most 200 constructs deep: chains of operators and of `?:` are lists.
//! Not said: that memory is enough.
#![tactic(auto)]

ghost use Rattle.std.specs.Prelude.{◌≤◌, ◌<◌, ◌-◌, ◌^◌, length, IfOk};
ghost use Rattle.vl_tree.specs.Token.{all_coded};
ghost use Rattle.vl_expr.specs.Parsed.{Parses, IsOnly};

mod expression;
mod operators;
mod parts;

pub use expression::{read_expr, read_list, read_more, read_selects};
use std::alloc::Global;
use vl_read::cursor::Cursor;
pub use vl_read::fault::SynFault;
use vl_tree::expression::Expr;
use vl_tree::token::Token;

/// The expression that the tokens from this number on begin with, and the number of the first token after it.
///
/// Let k be the least number such that no expression begins with the tokens from `at` to k, both included, or the
/// number of the tokens where there is no such k. Ok gives k, and the expression that the tokens before k are; `At`
/// gives k where they are none. `Deep` gives the first token before k that stands at depth 201, counted from `at`, in
/// place of both. `Memory` says nothing.
pub fn parse_expr(alloc: Global, tokens: &[Token], at: u32) -> Result<(Expr, u32), SynFault>
    requires { (at ≤ length tokens.now) × (length tokens.now < 2 ^ 32 - 1) }
    ensures parses { Parses at (all_coded tokens.now) result }
    ensures only { IfOk result (λ x. IsOnly at (all_coded tokens.now) x) }
{
    match read_expr(alloc, Cursor::starting_at(tokens, at), 0) {
        Ok((expr, rest)) => Ok((expr, (tokens.len() - rest.left()) as u32)),
        Err(fault) => Err(fault.told(tokens.len())),
    }
}
