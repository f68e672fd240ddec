//! The order or the loop of a design, where labels are at hand that tell it.

ghost use Rattle.std.specs.Prelude.{◌≡◌, ◌↔◌, ◌<◌, ◌^◌, ℕ, None, length, slice_index_or, IsTrue, IfOk, IfSome, MatchOption};
ghost use Rattle.comb_order.specs.Found as says;
ghost use Rattle.comb_order.specs.Labels as rise;
ghost use Rattle.comb_order.specs.Round.{IsLeast};

use crate::answer::Found;
use crate::distance::{comes_back, distances};
use crate::reads::{first_reads, rank};
use crate::round::round;
use crate::sorted::by_labels;
use netlist::flat::Flat;
use std::alloc::{AllocError, Global};

// Whether what a part reads first, if it reads one, has the higher label.
fn steps_up(labels: &[u64], first: Option<u32>, part: u32) -> bool
    ensures { IsTrue result ↔ rise.StepsUp labels.now first part }
{
    match first {
        Some(next) => rank(labels, part) < rank(labels, next),
        None => true,
    }
}

// Whether what a part reads first, if it reads one, has no lower label.
fn never_falls(labels: &[u64], first: Option<u32>, part: u32) -> bool
    ensures { IsTrue result ↔ rise.NeverFalls labels.now first part }
{
    match first {
        Some(next) => rank(labels, part) <= rank(labels, next),
        None => true,
    }
}

// The first part that doesn't step up.
fn first_level(labels: &[u64], firsts: &[Option<u32>]) -> Option<u32>
    requires { length firsts.now < 2 ^ 32 }
    ensures { MatchOption result
        (rise.StepUpBelow labels.now firsts.now (length firsts.now))
        (λ s. (s < length firsts.now) × rise.StepUpBelow labels.now firsts.now s) }
{
    for part in 0..firsts.len() {
        if !steps_up(labels, firsts[part], part as u32) {
            return Some(part as u32);
        }
    }
    None
}

// Whether no part falls.
fn none_falls(labels: &[u64], firsts: &[Option<u32>]) -> bool
    requires { length firsts.now < 2 ^ 32 }
    ensures { IsTrue result → rise.NoneFallsBelow labels.now firsts.now (length firsts.now) }
{
    for part in 0..firsts.len() {
        if !never_falls(labels, firsts[part], part as u32) {
            return false;
        }
    }
    true
}

// The loop that begins with a part, if the part reads itself and no lower one does.
fn loop_at(alloc: Global, flat: &Flat, start: u32) -> Result<Option<Found>, AllocError>
    requires there { start < length flat.now.driven }
    requires least { IsLeast flat.now start }
    ensures { IfOk result (λ x. IfSome x (λ found. says.Holds flat.now found)) }
{
    let ranks = distances(alloc, flat, start as usize)?;
    let firsts = first_reads(alloc, flat, &ranks)?;
    if comes_back(&ranks, firsts[start as usize]) {
        let parts = round(alloc, flat, &ranks, &firsts, start)?;
        return Ok(Some(Found::Loop(parts)));
    }
    Ok(None)
}

/// The order or the loop of a design, if the labels tell it.
pub(crate) fn quick(alloc: Global, flat: &Flat, labels: &[u64]) -> Result<Option<Found>, AllocError>
    requires count { length labels.now ≡ length flat.now.driven }
    requires few { length flat.now.driven < 2 ^ 32 }
    ensures { IfOk result (λ x. IfSome x (λ found. says.Holds flat.now found)) }
{
    let firsts = first_reads(alloc, flat, labels)?;
    match first_level(labels, &firsts) {
        None => {
            let parts = by_labels(alloc, flat, labels)?;
            Ok(Some(Found::Order(parts)))
        }
        Some(start) => {
            if !none_falls(labels, &firsts) {
                return Ok(None);
            }
            loop_at(alloc, flat, start)
        }
    }
}
