//! Signs and ranges.

ghost use Rattle.std.specs.Prelude.{◌≤◌, ◌<◌, IfOk, length};
ghost use Rattle.dt_core.specs.declared.limits.TheConstants.{MAX_DEPTH};
ghost use Rattle.vl_tree.specs.Token as k;
ghost use Rattle.vl_declaration.specs.Readers.{ReadsRange, ReadsShape, FindsFlag};

use std::alloc::Global;
use vl_expr::read_expr;
use vl_read::cursor::Cursor;
use vl_read::fault::Fault;
use vl_tree::expression::Range;
use vl_tree::token::{Key, Mark};

/// The sign and the range of a declaration.
#[derive(Drop)]
pub struct Shape {
    pub signed: bool,
    pub range: Option<Range>,
}

/// Whether this keyword comes first, and the tokens after it if it does.
pub fn skip_key<'a>(at: Cursor<'a>, wanted: Key) -> (bool, Cursor<'a>)
    ensures reads { FindsFlag (k.key wanted) at.entry result }
    ensures shorter { length result.1 ≤ length at.entry }
{
    match at.find_key(wanted) {
        Some((_, rest)) => (true, rest),
        None => (false, at),
    }
}

/// A range, if there is one (IEEE 1364-2005, A.2.5).
pub fn read_range<'a>(
    alloc: Global,
    at: Cursor<'a>,
    depth: u32,
) -> Result<(Option<Range>, Cursor<'a>), Fault>
    requires low { depth ≤ MAX_DEPTH }
    ensures reads { ReadsRange depth at.entry result }
    ensures shorter { IfOk result (λ x. length x.1 ≤ length at.entry) }
{
    match at.find_mark(Mark::OpenBracket) {
        None => Ok((None, at)),
        Some((place, rest)) => {
            let (left, rest) = read_expr(alloc, rest, depth + 1)?;
            let rest = rest.pass_mark(Mark::Colon)?;
            let (right, rest) = read_expr(alloc, rest, depth + 1)?;
            let rest = rest.pass_mark(Mark::CloseBracket)?;
            Ok((Some(Range { place, left, right }), rest))
        }
    }
}

/// `signed` and a range, each if it is there (A.2.1.1).
pub fn read_shape<'a>(
    alloc: Global,
    at: Cursor<'a>,
    depth: u32,
) -> Result<(Shape, Cursor<'a>), Fault>
    requires low { depth ≤ MAX_DEPTH }
    ensures reads { ReadsShape depth at.entry result }
    ensures shorter { IfOk result (λ x. length x.1 ≤ length at.entry) }
{
    let (signed, after) = skip_key(at, Key::Signed);
    let (range, rest) = read_range(alloc, after, depth)?;
    Ok((Shape { signed, range }, rest))
}
