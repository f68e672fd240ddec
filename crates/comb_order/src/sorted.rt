//! Parts in order of their labels.

ghost use Rattle.std.specs.Prelude.{◌≡◌, ◌<◌, ℕ, length, slice_index, IfOk};
ghost use Rattle.netlist.specs.Order.{IsOrder};
ghost use Rattle.comb_order.specs.Labels as labels;

use crate::reads::rank;
use netlist::flat::Flat;
use std::alloc::{AllocError, Global};

// All driven parts, by number.
fn all_parts(alloc: Global, flat: &Flat) -> Result<Vec<u32>, AllocError>
    ensures count { IfOk result (λ v. length v.items ≡ length flat.now.driven) }
    ensures each { IfOk result (λ v. (p : ℕ) → p < length v.items → slice_index v.items p ≡ p) }
{
    let mut parts = Vec::new(alloc);
    for part in 0..flat.driven().len() {
        parts.push(part as u32)?;
    }
    Ok(parts)
}

/// The driven parts, those of the higher label first.
pub(crate) fn by_labels(alloc: Global, flat: &Flat, ranks: &[u64]) -> Result<Vec<u32>, AllocError>
    requires { labels.AreRising flat.now ranks.now }
    ensures { IfOk result (λ v. IsOrder flat.now v.items) }
{
    let mut parts = all_parts(alloc, flat)?;
    parts.sort_by_key(|part| u64::MAX - rank(ranks, *part))?;
    Ok(parts)
}
