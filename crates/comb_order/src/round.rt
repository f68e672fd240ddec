//! The parts of a loop.

ghost use Rattle.std.specs.Prelude.{◌≡◌, ◌<◌, None, length, slice_index_or, IfOk};
ghost use Rattle.comb_order.specs.Distance as distance;
ghost use Rattle.comb_order.specs.First as first;
ghost use Rattle.comb_order.specs.Round as round;

use crate::reads::rank;
use netlist::flat::Flat;
use std::alloc::{AllocError, Global};

// The part that a part reads first; itself where there is none.
fn next_of(firsts: &[Option<u32>], part: u32) -> u32
    ensures { result ≡ round.next_of firsts.now part }
{
    match firsts.get(part as usize) {
        Some(Some(next)) => *next,
        _ => part,
    }
}

/// The parts of the shortest way from a part that reads itself back to it, by the least numbers.
pub(crate) fn round(
    alloc: Global,
    flat: &Flat,
    ranks: &[u64],
    firsts: &[Option<u32>],
    start: u32,
) -> Result<Vec<u32>, AllocError>
    requires there { start < length flat.now.driven }
    requires ranks { distance.AreDistances flat.now start ranks.now }
    requires firsts { first.AreFirst flat.now ranks.now firsts.now }
    requires back { distance.ComesBack ranks.now (slice_index_or firsts.now start None) }
    ensures { IfOk result (λ v. round.IsRound flat.now start v.items) }
{
    let mut parts = vec![in alloc; start]?;
    let mut next = next_of(firsts, start);
    for step in 0..rank(ranks, next) {
        parts.push(next)?;
        next = next_of(firsts, next);
    }
    Ok(parts)
}
