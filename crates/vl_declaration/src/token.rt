//! Single tokens, at a depth.

ghost use Rattle.std.specs.Prelude.{◌+◌, ◌≤◌, ◌<◌, IfOk, length};
ghost use Rattle.vl_tree.specs.Token as k;
ghost use Rattle.vl_declaration.specs.Readers.{ReadsToken};

use dt_core::limits::MAX_DEPTH;
use dt_core::place::Place;
use vl_read::cursor::Cursor;
use vl_read::fault::Fault;
use vl_tree::token::{Key, Mark};

/// The place of this keyword, which comes first at this depth, and the tokens after it.
pub fn read_key<'a>(at: &Cursor<'a>, wanted: Key, depth: u32) -> Result<(Place, Cursor<'a>), Fault>
    requires low { depth ≤ MAX_DEPTH + 1 }
    ensures reads { ReadsToken (k.key wanted) depth at.now result }
    ensures shorter { IfOk result (λ x. length x.1 < length at.now) }
    ensures shallow { IfOk result (λ x. depth ≤ MAX_DEPTH) }
{
    let (place, rest) = at.expect_key(wanted)?;
    if depth > MAX_DEPTH {
        return Err(Fault::Deep(at.left()));
    }
    Ok((place, rest))
}

/// The place of this mark, which comes first at this depth, and the tokens after it.
pub fn read_mark<'a>(
    at: &Cursor<'a>,
    wanted: Mark,
    depth: u32,
) -> Result<(Place, Cursor<'a>), Fault>
    requires low { depth ≤ MAX_DEPTH + 1 }
    ensures reads { ReadsToken (k.mark wanted) depth at.now result }
    ensures shorter { IfOk result (λ x. length x.1 < length at.now) }
    ensures shallow { IfOk result (λ x. depth ≤ MAX_DEPTH) }
{
    let (place, rest) = at.expect_mark(wanted)?;
    if depth > MAX_DEPTH {
        return Err(Fault::Deep(at.left()));
    }
    Ok((place, rest))
}
