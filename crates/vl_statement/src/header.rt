//! The header of a loop.

ghost use Rattle.std.specs.Prelude.{◌≤◌, ◌<◌, IfOk, length};
ghost use Rattle.dt_core.specs.declared.limits.TheConstants.{MAX_DEPTH};
ghost use Rattle.vl_statement.specs.Readers.{ReadsLoop};

use std::alloc::Global;
use vl_expr::read_expr;
use vl_read::cursor::Cursor;
use vl_read::fault::Fault;
use vl_simple::read_valued;
use vl_tree::statement::Loop;
use vl_tree::token::Mark;

/// `(variable = first; condition; stepped = step)` (IEEE 1364-2005, A.6.8), from after `for` on: the parentheses stand
/// at this depth.
pub fn read_loop<'a>(alloc: Global, at: Cursor<'a>, depth: u32) -> Result<(Loop, Cursor<'a>), Fault>
    requires low { depth ≤ MAX_DEPTH }
    ensures reads { ReadsLoop depth at.entry result }
    ensures shorter { IfOk result (λ x. length x.1 < length at.entry) }
{
    let rest = at.pass_mark(Mark::OpenParen)?;
    let (begin, rest) = read_valued(alloc, rest, depth + 1)?;
    let rest = rest.pass_mark(Mark::Semicolon)?;
    let (condition, rest) = read_expr(alloc, rest, depth + 1)?;
    let rest = rest.pass_mark(Mark::Semicolon)?;
    let (next, rest) = read_valued(alloc, rest, depth + 1)?;
    let rest = rest.pass_mark(Mark::CloseParen)?;
    let header = Loop {
        variable: begin.name,
        first: begin.value,
        condition,
        stepped: next.name,
        step: next.value,
    };
    Ok((header, rest))
}
