//! What a declaration names: nets, variables, and what an `assign` drives.

ghost use Rattle.std.specs.Prelude.{◌+◌, ◌≤◌, ◌<◌, IfOk, length};
ghost use Rattle.dt_core.specs.declared.limits.TheConstants.{MAX_DEPTH};
ghost use Rattle.vl_declaration.specs.Readers.{ReadsValue, ReadsNet, ReadsVariable, ReadsDriven};

use crate::range::read_range;
use std::alloc::Global;
use vl_expr::read_expr;
use vl_read::cursor::Cursor;
use vl_read::fault::Fault;
use vl_simple::{read_name, read_target};
use vl_tree::expression::Expr;
use vl_tree::item::{Driven, Net, Variable};
use vl_tree::token::Mark;

/// `=` and a value, if they are there.
pub fn read_value<'a>(
    alloc: Global,
    at: Cursor<'a>,
    depth: u32,
) -> Result<(Option<Expr>, Cursor<'a>), Fault>
    requires low { depth ≤ MAX_DEPTH }
    ensures reads { ReadsValue depth at.entry result }
    ensures shorter { IfOk result (λ x. length x.1 ≤ length at.entry) }
{
    match at.find_mark(Mark::Equals) {
        None => Ok((None, at)),
        Some((_, rest)) => {
            let (value, rest) = read_expr(alloc, rest, depth)?;
            Ok((Some(value), rest))
        }
    }
}

/// A net, with a value if it has one (IEEE 1364-2005, A.2.3).
pub fn read_net<'a>(alloc: Global, at: Cursor<'a>, depth: u32) -> Result<(Net, Cursor<'a>), Fault>
    requires low { depth ≤ MAX_DEPTH + 1 }
    ensures reads { ReadsNet depth at.entry result }
    ensures shorter { IfOk result (λ x. length x.1 < length at.entry) }
    ensures shallow { IfOk result (λ x. depth ≤ MAX_DEPTH) }
{
    let (name, rest) = read_name(alloc, at, depth)?;
    let (value, rest) = read_value(alloc, rest, depth)?;
    Ok((Net { name, value }, rest))
}

/// A variable, with a first value or the range of a memory if it has one (A.2.2.1).
pub fn read_variable<'a>(
    alloc: Global,
    at: Cursor<'a>,
    depth: u32,
) -> Result<(Variable, Cursor<'a>), Fault>
    requires low { depth ≤ MAX_DEPTH + 1 }
    ensures reads { ReadsVariable depth at.entry result }
    ensures shorter { IfOk result (λ x. length x.1 < length at.entry) }
    ensures shallow { IfOk result (λ x. depth ≤ MAX_DEPTH) }
{
    let (name, rest) = read_name(alloc, at, depth)?;
    match rest.find_mark(Mark::Equals) {
        Some((_, inner)) => {
            let (value, after) = read_expr(alloc, inner, depth)?;
            Ok((Variable::Valued(name, value), after))
        }
        None => {
            let (range, after) = read_range(alloc, rest, depth)?;
            match range {
                Some(range) => Ok((Variable::Memory(name, range), after)),
                None => Ok((Variable::Plain(name), after)),
            }
        }
    }
}

/// What is driven, and its value (A.6.1).
pub fn read_driven<'a>(
    alloc: Global,
    at: Cursor<'a>,
    depth: u32,
) -> Result<(Driven, Cursor<'a>), Fault>
    requires low { depth ≤ MAX_DEPTH + 1 }
    ensures reads { ReadsDriven depth at.entry result }
    ensures shorter { IfOk result (λ x. length x.1 < length at.entry) }
    ensures shallow { IfOk result (λ x. depth ≤ MAX_DEPTH) }
{
    let (target, rest) = read_target(alloc, at, depth)?;
    let (place, rest) = rest.expect_mark(Mark::Equals)?;
    let (value, rest) = read_expr(alloc, rest, depth)?;
    let driven = Driven {
        target,
        place,
        value,
    };
    Ok((driven, rest))
}
