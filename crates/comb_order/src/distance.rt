//! The fewest reads in which each driven part comes to one of them.

ghost use Rattle.std.specs.Prelude.{◌≡◌, ◌↔◌, ◌<◌, ◌≤◌, ◌^◌, true, false, length, sum, IsTrue, IfOk};
ghost use Rattle.comb_order.specs.Distance as distance;

use crate::guess;
use crate::reads::{first_reads, rank};
use netlist::flat::Flat;
use std::alloc::{AllocError, Global};

/// The rank of a part that never comes there.
pub(crate) const NEVER: u64 = u64::MAX;

// One read more than the part that is read first, if there is one.
fn one_read_more(ranks: &[u64], first: Option<u32>) -> u64
    ensures { result ≡ distance.one_read_more ranks.now first }
{
    match first {
        Some(part) => rank(ranks, part).saturating_add(1),
        None => NEVER,
    }
}

/// Whether the part that is read first, if there is one, comes there.
pub(crate) fn comes_back(ranks: &[u64], first: Option<u32>) -> bool
    ensures { IsTrue result ↔ distance.ComesBack ranks.now first }
{
    match first {
        Some(part) => rank(ranks, part) < NEVER,
        None => false,
    }
}

// Takes shorter ways through the parts that are read first, in one pass, and says whether it found one.
fn shorten(alloc: Global, flat: &Flat, ranks: &mut [u64], to: usize) -> Result<bool, AllocError>
    requires { distance.AreSupported flat.now to ranks.old }
    ensures supported { distance.AreSupported flat.now to ranks.new }
    ensures less { IfOk result (λ found. IsTrue found → sum ranks.new < sum ranks.old) }
    ensures settled { IfOk result (λ found. found ≡ false → distance.AreSettled flat.now to ranks.new) }
{
    let firsts = first_reads(alloc, flat, ranks)?;
    let mut found = false;
    for part in 0..ranks.len() {
        let through = one_read_more(ranks, firsts[part]);
        if part != to && through < ranks[part] {
            ranks[part] = through;
            found = true;
        }
    }
    Ok(found)
}

// Whether the rank of a part is 0 at the part `to`, and elsewhere NEVER or more than that of a part that it reads.
fn has_support(ranks: &[u64], first: Option<u32>, part: usize, to: usize) -> bool
    requires { part < length ranks.now }
    ensures { IsTrue result → distance.HasSupport to ranks.now first part }
{
    if part == to {
        return ranks[part] == 0;
    }
    match first {
        Some(next) => ranks[part] >= NEVER || rank(ranks, next) < ranks[part],
        None => ranks[part] >= NEVER,
    }
}

// Whether the ranks of all parts are supported, if there are as many.
fn are_supported(alloc: Global, flat: &Flat, ranks: &[u64], to: usize) -> Result<bool, AllocError>
    requires { to < length flat.now.driven }
    ensures { IfOk result (λ yes. IsTrue yes → distance.AreSupported flat.now to ranks.now) }
{
    if ranks.len() != flat.driven().len() {
        return Ok(false);
    }
    let firsts = first_reads(alloc, flat, ranks)?;
    for part in 0..ranks.len() {
        if !has_support(ranks, firsts[part], part, to) {
            return Ok(false);
        }
    }
    Ok(true)
}

// Ranks to begin with: those of a quick search, or NEVER but for the part `to`.
fn first_ranks(alloc: Global, flat: &Flat, to: usize) -> Result<Vec<u64>, AllocError>
    requires { to < length flat.now.driven }
    ensures few { length flat.now.driven < 2 ^ 32 }
    ensures supported { IfOk result (λ v. distance.AreSupported flat.now to v.items) }
{
    let count = flat.driven().len();
    let quick = guess::ranks(alloc, flat, to)?;
    if are_supported(alloc, flat, &quick, to)? {
        return Ok(quick);
    }
    let mut ranks = vec![in alloc; NEVER; count]?;
    ranks[to] = 0;
    Ok(ranks)
}

/// The fewest reads in which each part comes to the part `to`; NEVER where it doesn't.
pub(crate) fn distances(alloc: Global, flat: &Flat, to: usize) -> Result<Vec<u64>, AllocError>
    requires { to < length flat.now.driven }
    ensures { IfOk result (λ v. distance.AreDistances flat.now to v.items) }
{
    let mut ranks = first_ranks(alloc, flat, to)?;
    loop {
        if !shorten(alloc, flat, &mut ranks, to)? {
            return Ok(ranks);
        }
    }
}
