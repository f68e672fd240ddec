//! The order or the loop of a design, part by part: how it is found where nothing quicker is at hand.

ghost use Rattle.std.specs.Prelude.{◌≡◌, ◌<◌, ◌^◌, ℕ, None, length, slice_index, slice_index_or, IfOk};
ghost use Rattle.comb_order.specs.Found as says;
ghost use Rattle.comb_order.specs.Labels as rise;

use crate::answer::Found;
use crate::distance::{comes_back, distances};
use crate::reads::first_reads;
use crate::round::round;
use crate::sorted::by_labels;
use netlist::flat::Flat;
use std::alloc::{AllocError, Global};

// One more where the part doesn't come back.
fn raised(label: u64, ranks: &[u64], first: Option<u32>) -> u64
    requires { label < 2 ^ 32 }
    ensures { rise.Raised ranks.now first label result }
{
    if comes_back(ranks, first) {
        label
    } else {
        label + 1
    }
}

// Adds 1 to the label of each part that doesn't come back.
fn raise(labels: &mut [u64], ranks: &[u64], firsts: &[Option<u32>])
    requires count { length firsts.now ≡ length labels.old }
    requires few { (p : ℕ) → slice_index labels.old p < 2 ^ 32 }
    ensures { rise.AreRaised ranks.now firsts.now labels.old labels.new }
{
    for part in 0..labels.len() {
        labels[part] = raised(labels[part], ranks, firsts[part]);
    }
}

/// The order or the loop of a design.
pub(crate) fn searched(alloc: Global, flat: &Flat) -> Result<Found, AllocError>
    ensures { IfOk result (λ found. says.Holds flat.now found) }
{
    let mut labels = vec![in alloc; 0u64; flat.driven().len()]?;
    for part in 0..flat.driven().len() {
        let ranks = distances(alloc, flat, part)?;
        let firsts = first_reads(alloc, flat, &ranks)?;
        if comes_back(&ranks, firsts[part]) {
            let parts = round(alloc, flat, &ranks, &firsts, part as u32)?;
            return Ok(Found::Loop(parts));
        }
        raise(&mut labels, &ranks, &firsts);
    }
    let parts = by_labels(alloc, flat, &labels)?;
    Ok(Found::Order(parts))
}
