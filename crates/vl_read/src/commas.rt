//! Lists with commas, for any rule of the grammar.

ghost use Rattle.std.specs.Prelude.{◌≤◌, ◌<◌, ◌+◌, IfOk, length};
ghost use Rattle.dt_core.specs.declared.limits.TheConstants.{MAX_DEPTH};
ghost use Rattle.vl_read.specs.Commas.{ReadsCommas};

use crate::cursor::Cursor;
use crate::fault::Fault;
use crate::lists::list_of;
use sqlite_items::Items;
use std::alloc::Global;
use vl_tree::token::Mark;

/// A rule of the grammar with its reader. A contract sees a tree as plain data: `view` gives it, `at` says which tokens
/// it is, `depths` at which depths they stand, and `may` what may follow them; `laws` says that a comma may, and that
/// there is a tree.
pub trait Rule {
    ghost use Rattle.std.specs.Prelude.{ℕ, List, ◌≤◌, ◌<◌, ◌+◌, IfOk, length};
    ghost use Rattle.dt_core.specs.declared.limits.TheConstants.{MAX_DEPTH};
    ghost use Rattle.vl_tree.specs.Placed.{Placed};
    ghost use Rattle.vl_read.specs.Reading.{Reads};
    ghost use Rattle.vl_read.specs.Commas.{IsListed};

    type Tree: Drop;

    ghost Plain: { Type 0 };

    ghost view: { Self.Tree → Plain };

    ghost at: { Plain → List Placed → List Placed → Type 0 };

    ghost depths: { ℕ → Plain → List ℕ };

    ghost may: { List Placed → Type 0 };

    ghost laws: { IsListed at may };

    /// The tree that comes first, at this depth, and the tokens after it.
    fn read<'a>(
        alloc: Global,
        cursor: Cursor<'a>,
        depth: u32,
    ) -> Result<(Self::Tree, Cursor<'a>), Fault>
        requires low { depth ≤ MAX_DEPTH + 1 }
        ensures reads { Reads view at (depths depth) may may cursor.entry result }
        ensures shorter { IfOk result (λ x. length x.1 < length cursor.entry) }
        ensures shallow { IfOk result (λ x. depth ≤ MAX_DEPTH) };
}

/// The trees of a rule with commas between them, one at least, at this depth, and the tokens after them.
pub fn read_commas<'a, R: Rule>(
    alloc: Global,
    cursor: Cursor<'a>,
    depth: u32,
) -> Result<(Items<R::Tree>, Cursor<'a>), Fault>
    requires low { depth ≤ MAX_DEPTH + 1 }
    ensures reads { ReadsCommas R.view R.at R.depths R.may depth cursor.entry result }
    ensures shorter { IfOk result (λ x. length x.1 < length cursor.entry) }
    ensures shallow { IfOk result (λ x. depth ≤ MAX_DEPTH) }
{
    let (first, after) = R::read(alloc, cursor, depth)?;
    let mut all = list_of(alloc, first)?;
    let mut rest = after;
    loop {
        match rest.find_mark(Mark::Comma) {
            None => return Ok((all, rest)),
            Some((_, inner)) => {
                let (tree, after) = R::read(alloc, inner, depth)?;
                all.push(tree)?;
                rest = after;
            }
        }
    }
}
