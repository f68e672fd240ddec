//! Lists that begin with one element. Most lists of a tree have no more, so there is room for one alone.

ghost use Rattle.std.specs.Prelude.{◌≡◌, ◌∷◌, [], IfOk};

use sqlite_items::Items;
use std::alloc::{AllocError, Global};

/// The list of this element. It takes memory for one.
pub fn list_of<T: Drop>(alloc: Global, first: T) -> Result<Items<T>, AllocError>
    ensures { IfOk result (λ all. all ≡ first ∷ []) }
{
    let mut all = Vec::with_capacity(alloc, 1)?;
    all.push(first)?;
    Ok(Items::from_vec(all))
}

/// A list of nothing, with room for so many elements.
pub fn room_for<T>(alloc: Global, count: usize) -> Result<Items<T>, AllocError>
    ensures { IfOk result (λ all. all ≡ []) }
{
    Ok(Items::from_vec(Vec::with_capacity(alloc, count)?))
}
