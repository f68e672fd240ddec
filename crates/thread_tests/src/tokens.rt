//! Rounds of tokens through a channel, on one thread and between two.

ghost use Rattle.std.specs.Prelude.{◌≡◌, ◌+◌, ◌-◌, ◌^◌, ◌<◌, [], IfOk, true, replicate};
ghost use Rattle.named_run.specs.Named.{HasShape, token_of};
ghost use Rattle.token_chan.specs.Ends.{next_given};
ghost use Rattle.token_chan.specs.RuledEnds.{giver_state, taker_state};
ghost use Rattle.thread_tests.specs.Runs.{quiet, wide};

use dt_core::bits::Bits;
use dt_core::fault::NoMemory;
use named_run::token::{Token, Values};
use std::alloc::Global;
use std::marker::Brand;
use std::sync::Wait;
use std::thread;
use std::thread::{Threads, join};
use token_chan::ends::{GiveEnd, TakeEnd};
use token_chan::open::ruled_pair;
use token_chan::queues::{RuledGive, RuledTake};

// ---- one thread

// A token of sixteen registers of 32 bits, each 0.
fn wide_token(alloc: Global, cycle: u64) -> Result<Token, NoMemory>
    ensures { IfOk result (λ t. t ≡ token_of wide 0 cycle) }
{
    let bits = sixteen_of(alloc, Bits::of(32, 0))?;
    Ok(Token {
        channel: 0,
        cycle,
        values: Values::new(bits),
    })
}

// The same bit vector sixteen times.
fn sixteen_of(alloc: Global, bits: Bits) -> Result<Vec<Bits>, NoMemory>
    ensures { IfOk result (λ v. v.items ≡ replicate 16 bits) }
{
    Ok(vec![in alloc; bits; 16]?)
}

// The token is given again, as the one of the next cycle; whether it was taken in.
fn give_again<R: Wait + Copy>(give: &mut RuledGive<R>, token: Token, cycle: u64) -> bool
    requires name { (giver_state give.old).name ≡ record { run = wide; channel = 0; depth = 2 } }
    requires next { (giver_state give.old).given ≡ cycle }
    requires token { token ≡ token_of wide 0 token.cycle }
    ensures name { (giver_state give.new).name ≡ (giver_state give.old).name }
    ensures given { result ≡ true → (giver_state give.new).given ≡ cycle + 1 }
{
    let mut next = token;
    next.cycle = cycle;
    give.give(next).is_ok()
}

/// A token of sixteen registers is taken and given again, so many times; how many times it was.
pub fn on_one_thread<R: Wait + Copy>(rt: R, alloc: Global, count: u64) -> Result<u64, NoMemory> {
    let blank = wide_token(alloc, 0)?;
    let Ok(blanks) = Vec::from_array(alloc, [blank]) else {
        return Err(NoMemory);
    };
    let first = wide_token(alloc, 0)?;
    let (mut give, mut take) = ruled_pair::<Brand, R>(rt, alloc, 0, 2, first, blanks)?;
    for round in 0..count {
        let Some(token) = take.take() else {
            return Ok(round);
        };
        if !give_again(&mut give, token, round + 1) {
            return Ok(round);
        }
    }
    Ok(count)
}

// ---- two threads

/// After how many tokens the giver and the taker pause; 0 for never.
#[derive(Clone, Copy)]
pub struct Pauses {
    pub giver: u64,
    pub taker: u64,
}

/// The token of a channel that carries no register.
pub fn bare(alloc: Global, cycle: u64) -> Token
    ensures { result ≡ record { channel = 0; cycle = cycle; values = [] } }
{
    Token {
        channel: 0,
        cycle,
        values: Values::new(Vec::new(alloc)),
    }
}

// Lets other threads run for a while, where the count has come to a pause.
fn pause(count: u64, every: u64) {
    if every != 0 && count % every == 0 {
        for _ in 0..20 {
            thread::yield_now();
        }
    }
}

// Lets other threads run, once in so many tries. Where other work waits for the processors, a thread that gives up its
// turn at each try would stand behind all of it for every few tokens.
fn rest(tries: &mut u32) {
    *tries = tries.wrapping_add(1);
    if *tries % 1_024 == 0 {
        thread::yield_now();
    }
}

// A blank, once there is one.
fn wait_for_blank<R: Wait + Copy>(rt: &R, give: &mut RuledGive<R>) -> Token
    requires { (giver_state give.old).name ≡ record { run = quiet; channel = 0; depth = 4 } }
    ensures shape { HasShape quiet 0 result }
    ensures name { (giver_state give.new).name ≡ (giver_state give.old).name }
    ensures given { (giver_state give.new).given ≡ (giver_state give.old).given }
{
    let mut tries = 0;
    for _ in rt.forever() {
        if let Some(token) = give.blank() {
            return token;
        }
        rest(&mut tries);
    }
    unreachable!()
}

// Gives a token, once there is room.
fn wait_to_give<R: Wait + Copy>(rt: &R, give: &mut RuledGive<R>, token: Token)
    requires { token ≡ next_given (giver_state give.old) }
    ensures name { (giver_state give.new).name ≡ (giver_state give.old).name }
    ensures given { (giver_state give.new).given ≡ (giver_state give.old).given + 1 }
{
    let mut held = token;
    let mut tries = 0;
    for _ in rt.forever() {
        match give.give(held) {
            Ok(()) => return,
            Err(token) => held = token,
        }
        rest(&mut tries);
    }
    unreachable!()
}

// Gives the tokens of the cycles 1 to `count`.
fn give_all<R: Wait + Copy>(rt: &R, give: &mut RuledGive<R>, count: u64, every: u64)
    requires name { (giver_state give.old).name ≡ record { run = quiet; channel = 0; depth = 4 } }
    requires next { (giver_state give.old).given ≡ 1 }
{
    for given in 0..count {
        let mut token = wait_for_blank(rt, give);
        token.cycle = given + 1;
        wait_to_give(rt, give, token);
        pause(given, every);
    }
}

// Takes tokens until the one of the cycle `count` has come, and hands each back; the last that was in order.
fn take_all<R: Wait + Copy>(rt: &R, take: &mut RuledTake<R>, count: u64, every: u64) -> u64
    requires { (taker_state take.old).name ≡ record { run = quiet; channel = 0; depth = 4 } }
{
    let mut next = 0;
    let mut tries = 0;
    for _ in rt.forever() {
        let Some(token) = take.take() else {
            rest(&mut tries);
            continue;
        };
        if token.cycle != next || take.hand_back(token).is_err() || next == count {
            return next;
        }
        next += 1;
        pause(next, every);
    }
    unreachable!()
}

/// Tokens without registers go through a channel of four, from one thread to another; the last cycle that came in
/// order.
pub fn between_threads<R: Wait + Threads + Copy + Send + Sync>(
    rt: &R,
    alloc: Global,
    count: u64,
    pauses: &Pauses,
) -> Result<u64, NoMemory>
    requires { count < 2 ^ 64 - 1 }
{
    let three = [bare(alloc, 0), bare(alloc, 0), bare(alloc, 0)];
    let Ok(blanks) = Vec::from_array(alloc, three) else {
        return Err(NoMemory);
    };
    let first = bare(alloc, 0);
    let (mut give, mut take) = ruled_pair::<Brand, R>(*rt, alloc, 0, 4, first, blanks)?;
    let ((), last) = join(
        rt,
        || give_all(rt, &mut give, count, pauses.giver),
        || take_all(rt, &mut take, count, pauses.taker),
    );
    Ok(last)
}
