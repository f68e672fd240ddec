//! Channels, on one thread and between two.

ghost use Rattle.std.specs.Prelude.{◌≡◌, ◌+◌, [], if◌then◌else◌};
ghost use Rattle.token_chan.specs.RuledEnds.{giver_state, taker_state};
ghost use Rattle.thread_tests.specs.Runs.{quiet};

use crate::tokens::{Pauses, bare, between_threads, on_one_thread};
use std::alloc::Global;
use std::marker::Brand;
use std::sync::Wait;
use std::test::*;
use token_chan::ends::{GiveEnd, TakeEnd};
use token_chan::open::ruled_pair;
use token_chan::pairs::Pairs;
use token_chan::queues::{RuledGive, RuledTake};
use token_chan::ruled::Ruled;

// Gives the token of this cycle; whether it was taken in.
fn give_next<R: Wait + Copy>(give: &mut RuledGive<R>, alloc: Global, cycle: u64) -> bool
    requires name { (giver_state give.old).name ≡ record { run = quiet; channel = 0; depth = 2 } }
    requires next { (giver_state give.old).given ≡ cycle }
    ensures name { (giver_state give.new).name ≡ (giver_state give.old).name }
    ensures queues { (giver_state give.new).queues ≡ (giver_state give.old).queues }
    ensures given { (giver_state give.new).given ≡ (if result then cycle + 1 else cycle) }
{
    give.give(bare(alloc, cycle)).is_ok()
}

// A token is taken, then none; two are given and no third; they are taken in order, and then one is given.
#[test]
fn a_channel_of_two(rt: HostRuntime) -> Result<(), Fail> {
    let alloc = rt.alloc();
    let mut blanks = Vec::new(alloc);
    blanks.push(bare(alloc, 0))?;
    let (mut give, mut take) = ruled_pair::<Brand, HostRuntime>(
        rt,
        alloc,
        0,
        2,
        bare(alloc, 0),
        blanks,
    )?;
    assert_eq!(rt; take.take().map(|token| token.cycle), Some(0));
    assert!(rt; take.take().is_none());
    assert!(rt; give_next(&mut give, alloc, 1));
    assert!(rt; give_next(&mut give, alloc, 2));
    assert!(rt; !give_next(&mut give, alloc, 3));
    assert_eq!(rt; take.take().map(|token| token.cycle), Some(1));
    assert_eq!(rt; take.take().map(|token| token.cycle), Some(2));
    assert!(rt; give_next(&mut give, alloc, 3));
    Ok(())
}

// Takes the oldest token; its cycle.
fn take_one<R: Wait + Copy>(take: &mut RuledTake<R>) -> Option<u64>
    ensures name { (taker_state take.new).name ≡ (taker_state take.old).name }
    ensures queues { (taker_state take.new).queues ≡ (taker_state take.old).queues }
{
    match take.take() {
        Some(token) => Some(token.cycle),
        None => None,
    }
}

// Hands back a token of this cycle; whether there was room.
fn return_one<R: Wait + Copy>(take: &mut RuledTake<R>, alloc: Global, cycle: u64) -> bool
    requires name { (taker_state take.old).name ≡ record { run = quiet; channel = 0; depth = 2 } }
    ensures name { (taker_state take.new).name ≡ (taker_state take.old).name }
    ensures queues { (taker_state take.new).queues ≡ (taker_state take.old).queues }
{
    take.hand_back(bare(alloc, cycle)).is_ok()
}

// Gets the oldest token that was handed back; its cycle.
fn reuse_one<R: Wait + Copy>(give: &mut RuledGive<R>) -> Option<u64>
    ensures name { (giver_state give.new).name ≡ (giver_state give.old).name }
    ensures queues { (giver_state give.new).queues ≡ (giver_state give.old).queues }
{
    match give.blank() {
        Some(token) => Some(token.cycle),
        None => None,
    }
}

// A channel from which all was taken is closed: no token is left, and of those that were handed back the one that wasn't
// reused is handed over.
#[test]
fn an_empty_channel_is_closed(rt: HostRuntime) -> Result<(), Fail> {
    let alloc = rt.alloc();
    let mut blanks = Vec::new(alloc);
    blanks.push(bare(alloc, 0))?;
    let mut pairs = Ruled::new(rt);
    let (mut give, mut take) = pairs.pair::<Brand>(alloc, 0, 2, bare(alloc, 0), blanks)?;
    assert_eq!(rt; reuse_one(&mut give), Some(0));
    assert_eq!(rt; reuse_one(&mut give), None);
    assert_eq!(rt; take_one(&mut take), Some(0));
    assert!(rt; return_one(&mut take, alloc, 7));
    assert!(rt; return_one(&mut take, alloc, 8));
    assert!(rt; !return_one(&mut take, alloc, 9));
    assert_eq!(rt; reuse_one(&mut give), Some(7));
    let mut used = Vec::with_capacity(alloc, 2)?;
    assert!(rt; pairs.close(give, take, &mut used).is_none());
    assert_eq!(rt; used.len(), 1);
    assert_eq!(rt; used[0].cycle, 8);
    assert_eq!(rt; pairs.sent(), 0);
    Ok(())
}

// A channel that holds two tokens is closed: the oldest comes, the blank that wasn't reused stands behind what was
// there before, and the token that was given counts as sent.
#[test]
fn a_full_channel_is_closed(rt: HostRuntime) -> Result<(), Fail> {
    let alloc = rt.alloc();
    let mut blanks = Vec::new(alloc);
    blanks.push(bare(alloc, 0))?;
    let mut pairs = Ruled::new(rt);
    let (mut give, take) = pairs.pair::<Brand>(alloc, 0, 2, bare(alloc, 0), blanks)?;
    assert!(rt; give_next(&mut give, alloc, 1));
    let mut used = Vec::with_capacity(alloc, 3)?;
    used.push(bare(alloc, 5))?;
    let oldest = pairs.close(give, take, &mut used);
    assert_eq!(rt; oldest.map(|token| token.cycle), Some(0));
    assert_eq!(rt; used.len(), 2);
    assert_eq!(rt; used[0].cycle, 5);
    assert_eq!(rt; used[1].cycle, 0);
    assert_eq!(rt; pairs.sent(), 1);
    Ok(())
}

// Tokens of sixteen registers go round.
#[test]
fn wide_tokens(rt: HostRuntime) -> Result<(), Fail> {
    assert_eq!(rt; on_one_thread(rt, rt.alloc(), 1_000)?, 1_000);
    Ok(())
}

// A million tokens go through a channel of four in order, though each thread pauses now and then.
#[test]
fn a_million_tokens(rt: HostRuntime) -> Result<(), Fail> {
    let pauses = Pauses {
        giver: 10_007,
        taker: 7_411,
    };
    assert_eq!(rt;
        between_threads(&rt, rt.alloc(), 1_000_000, &pauses)?,
        1_000_000
    );
    Ok(())
}
