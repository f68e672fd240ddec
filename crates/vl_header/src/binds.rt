//! Connections of instances, and values of their parameters.

ghost use Rattle.std.specs.Prelude.{◌+◌, ◌≤◌, ◌<◌, IfOk, length};
ghost use Rattle.dt_core.specs.declared.limits.TheConstants.{MAX_DEPTH};
ghost use Rattle.vl_header.specs.Readers.{ReadsClosed, ReadsNamedBind, ReadsClosedBinds, ReadsInstance, ReadsParameterBinds};

use crate::lists::NamedBinds;
use std::alloc::Global;
use vl_declaration::read_mark;
use vl_expr::{read_expr, read_list};
use vl_read::commas::read_commas;
use vl_read::cursor::Cursor;
use vl_read::fault::Fault;
use vl_simple::read_name;
use vl_tree::expression::Expr;
use vl_tree::item::{Binds, Instance, NamedBind};
use vl_tree::token::Mark;

// An expression, if there is one, and the `)` after it.
fn read_closed<'a>(
    alloc: Global,
    at: Cursor<'a>,
    depth: u32,
) -> Result<(Option<Expr>, Cursor<'a>), Fault>
    requires low { depth ≤ MAX_DEPTH }
    ensures reads { ReadsClosed depth at.entry result }
    ensures shorter { IfOk result (λ x. length x.1 < length at.entry) }
{
    match at.find_mark(Mark::CloseParen) {
        Some((_, rest)) => Ok((None, rest)),
        None => {
            let (value, after) = read_expr(alloc, at, depth + 1)?;
            let rest = after.pass_mark(Mark::CloseParen)?;
            Ok((Some(value), rest))
        }
    }
}

/// `.name(value)` or `.name()` (IEEE 1364-2005, A.4.1).
pub fn read_named_bind<'a>(
    alloc: Global,
    at: Cursor<'a>,
    depth: u32,
) -> Result<(NamedBind, Cursor<'a>), Fault>
    requires low { depth ≤ MAX_DEPTH + 1 }
    ensures reads { ReadsNamedBind depth at.entry result }
    ensures shorter { IfOk result (λ x. length x.1 < length at.entry) }
    ensures shallow { IfOk result (λ x. depth ≤ MAX_DEPTH) }
{
    let (place, after) = read_mark(&at, Mark::Dot, depth)?;
    let (name, after) = read_name(alloc, after, depth)?;
    let inner = after.pass_mark(Mark::OpenParen)?;
    let (value, rest) = read_closed(alloc, inner, depth)?;
    Ok((NamedBind { place, name, value }, rest))
}

// Binds, in order or by name, if there are some, and the `)` after them (A.4.1).
fn read_closed_binds<'a>(
    alloc: Global,
    at: Cursor<'a>,
    depth: u32,
) -> Result<(Option<Binds>, Cursor<'a>), Fault>
    requires low { depth ≤ MAX_DEPTH }
    ensures reads { ReadsClosedBinds depth at.entry result }
    ensures shorter { IfOk result (λ x. length x.1 < length at.entry) }
{
    if let Some((_, rest)) = at.find_mark(Mark::CloseParen) {
        return Ok((None, rest));
    }
    match at.find_mark(Mark::Dot) {
        Some(_) => {
            let (binds, after) = read_commas::<NamedBinds>(alloc, at, depth + 1)?;
            let rest = after.pass_mark(Mark::CloseParen)?;
            Ok((Some(Binds::ByName(binds)), rest))
        }
        None => {
            let (values, after) = read_list(alloc, at, depth + 1)?;
            let rest = after.pass_mark(Mark::CloseParen)?;
            Ok((Some(Binds::Ordered(values)), rest))
        }
    }
}

/// An instance's name and what stands in its parentheses (A.4.1).
pub fn read_instance<'a>(
    alloc: Global,
    at: Cursor<'a>,
    depth: u32,
) -> Result<(Instance, Cursor<'a>), Fault>
    requires low { depth ≤ MAX_DEPTH + 1 }
    ensures reads { ReadsInstance depth at.entry result }
    ensures shorter { IfOk result (λ x. length x.1 < length at.entry) }
    ensures shallow { IfOk result (λ x. depth ≤ MAX_DEPTH) }
{
    let (name, after) = read_name(alloc, at, depth)?;
    let inner = after.pass_mark(Mark::OpenParen)?;
    let (binds, rest) = read_closed_binds(alloc, inner, depth)?;
    Ok((Instance { name, binds }, rest))
}

/// `#(..)`, if it is there: the values of parameters (A.4.1).
pub fn read_parameter_binds<'a>(
    alloc: Global,
    at: Cursor<'a>,
    depth: u32,
) -> Result<(Option<Option<Binds>>, Cursor<'a>), Fault>
    requires low { depth ≤ MAX_DEPTH }
    ensures reads { ReadsParameterBinds depth at.entry result }
    ensures shorter { IfOk result (λ x. length x.1 ≤ length at.entry) }
{
    match at.find_mark(Mark::Hash) {
        None => Ok((None, at)),
        Some((_, after)) => {
            let inner = after.pass_mark(Mark::OpenParen)?;
            let (binds, rest) = read_closed_binds(alloc, inner, depth)?;
            Ok((Some(binds), rest))
        }
    }
}
