//! Parts that several rules have.

ghost use Rattle.std.specs.Prelude.{◌+◌, ◌≤◌, ◌<◌, IfOk, length};
ghost use Rattle.vl_tree.specs.Token as k;
ghost use Rattle.vl_tree.specs.declared.token.Mark.TheVariants as m;
ghost use Rattle.vl_simple.specs.Readers.{ReadsName, ReadsValued, ReadsGrouped, ReadsLabel, FindsOptional};

use dt_core::limits::MAX_DEPTH;
use std::alloc::Global;
use vl_expr::read_expr;
use vl_read::cursor::Cursor;
use vl_read::fault::Fault;
use vl_tree::expression::{Expr, Name};
use vl_tree::item::Valued;
use vl_tree::token::Mark;

/// A name, at this depth.
pub fn read_name<'a>(alloc: Global, at: Cursor<'a>, depth: u32) -> Result<(Name, Cursor<'a>), Fault>
    requires low { depth ≤ MAX_DEPTH + 1 }
    ensures reads { ReadsName depth at.entry result }
    ensures shorter { IfOk result (λ x. length x.1 < length at.entry) }
    ensures shallow { IfOk result (λ x. depth ≤ MAX_DEPTH) }
{
    let (name, rest) = at.expect_name(alloc)?;
    if depth > MAX_DEPTH {
        return Err(Fault::Deep(at.left()));
    }
    Ok((name, rest))
}

/// A name, `=` and a value (IEEE 1364-2005, A.2.4), at this depth.
pub fn read_valued<'a>(
    alloc: Global,
    at: Cursor<'a>,
    depth: u32,
) -> Result<(Valued, Cursor<'a>), Fault>
    requires low { depth ≤ MAX_DEPTH + 1 }
    ensures reads { ReadsValued depth at.entry result }
    ensures shorter { IfOk result (λ x. length x.1 < length at.entry) }
    ensures shallow { IfOk result (λ x. depth ≤ MAX_DEPTH) }
{
    let (name, rest) = read_name(alloc, at, depth)?;
    let rest = rest.pass_mark(Mark::Equals)?;
    let (value, rest) = read_expr(alloc, rest, depth)?;
    Ok((Valued { name, value }, rest))
}

/// An expression in parentheses that stand at this depth.
pub fn read_grouped<'a>(
    alloc: Global,
    at: Cursor<'a>,
    depth: u32,
) -> Result<(Expr, Cursor<'a>), Fault>
    requires low { depth ≤ MAX_DEPTH }
    ensures reads { ReadsGrouped depth at.entry result }
    ensures shorter { IfOk result (λ x. length x.1 < length at.entry) }
{
    let rest = at.pass_mark(Mark::OpenParen)?;
    let (expr, rest) = read_expr(alloc, rest, depth + 1)?;
    let rest = rest.pass_mark(Mark::CloseParen)?;
    Ok((expr, rest))
}

/// `: label`, if it comes next (A.6.3), at this depth.
pub fn read_label<'a>(
    alloc: Global,
    at: Cursor<'a>,
    depth: u32,
) -> Result<(Option<Name>, Cursor<'a>), Fault>
    requires low { depth ≤ MAX_DEPTH }
    ensures reads { ReadsLabel depth at.entry result }
    ensures shorter { IfOk result (λ x. length x.1 ≤ length at.entry) }
{
    match at.find_mark(Mark::Colon) {
        None => Ok((None, at)),
        Some((_, rest)) => {
            let (name, rest) = rest.expect_name(alloc)?;
            Ok((Some(name), rest))
        }
    }
}

/// Whether a colon comes next, and the tokens after it if it does.
pub fn pass_colon<'a>(at: Cursor<'a>) -> (bool, Cursor<'a>)
    ensures reads { FindsOptional (k.mark m.Colon) at.entry result }
    ensures shorter { length result.1 ≤ length at.entry }
{
    match at.find_mark(Mark::Colon) {
        None => (false, at),
        Some((_, rest)) => (true, rest),
    }
}
