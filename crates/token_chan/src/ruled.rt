//! Channels over queues under a rule: what their ends do, and what makes them.

ghost use Rattle.std.specs.Prelude.{◌≡◌, ◌+◌, ◌≤◌, true, length, vec_len, vec_capacity};
ghost use Rattle.crossbeam_queue.specs.Passes.{view, IsPassOf};
ghost use Rattle.token_chan.specs.ReturnRule.{AreMoved};
ghost use Rattle.token_chan.specs.Ends.{AreEnds, TokensStand, ReturnsStand};
ghost use Rattle.token_chan.specs.RuledEnds.{giver_state, taker_state};

use crate::ends::{GiveEnd, TakeEnd};
use crate::open::ruled_pair;
use crate::pairs::Pairs;
use crate::queues::{ReturnQueue, RuledGive, RuledTake};
use crate::rules::{
    Ends, Gives, HandsBack, Idle, ReturnEnds, ReturnIdle, ReturnWhole, Reuses, ReusesLast, Stands,
    Takes, TakesLast, Whole,
};
use crate::view::ReturnView;
use crossbeam_queue::Pass;
use dt_core::fault::NoMemory;
use named_run::run::RunName;
use named_run::token::Token;
use std::alloc::Global;
use std::mem;
use std::sync::Wait;

impl<R: Wait + Copy> GiveEnd for RuledGive<R> {
    ghost state = { giver_state };

    fn give(&mut self, token: Token) -> Result<(), Token> {
        match self
            .tokens
            .push_as::<Gives, R>(&self.rt, &mut self.pass, token)
        {
            Ok(()) => {
                self.sent = self.sent.saturating_add(1);
                Ok(())
            }
            Err(token) => {
                self.refusals = self.refusals.saturating_add(1);
                Err(token)
            }
        }
    }

    fn blank(&mut self) -> Option<Token> {
        match self
            .returns
            .pop_as::<Reuses, R>(&self.rt, &mut self.return_pass)
        {
            Some(blank) => Some(blank),
            None => {
                self.refusals = self.refusals.saturating_add(1);
                None
            }
        }
    }
}

impl<R: Wait + Copy> TakeEnd for RuledTake<R> {
    ghost state = { taker_state };

    fn take(&mut self) -> Option<Token> {
        match self.tokens.pop_as::<Takes, R>(&self.rt, &mut self.pass) {
            Some(token) => Some(token),
            None => {
                self.refusals = self.refusals.saturating_add(1);
                None
            }
        }
    }

    fn hand_back(&mut self, token: Token) -> Result<(), Token> {
        match self
            .returns
            .push_as::<HandsBack, R>(&self.rt, &mut self.return_pass, token)
        {
            Ok(()) => Ok(()),
            Err(token) => {
                self.refusals = self.refusals.saturating_add(1);
                Err(token)
            }
        }
    }
}

/// Makes channels over queues under a rule.
#[derive(Drop)]
pub struct Ruled<R: Wait + Copy> {
    rt: R,
    sent: u64,
}

impl<R: Wait + Copy> Ruled<R> {
    /// It has closed no channel yet.
    pub fn new(rt: R) -> Ruled<R>
        ensures { result.sent ≡ 0 }
    {
        Ruled { rt, sent: 0 }
    }
}

impl<R: Wait + Copy + Send + Drop> Pairs for Ruled<R> {
    type Give = RuledGive<R>;

    type Take = RuledTake<R>;

    ghost sent = { λ p. p.sent };

    fn pair<N: RunName>(
        &self,
        alloc: Global,
        channel: u32,
        depth: u32,
        first: Token,
        blanks: Vec<Token>,
    ) -> Result<(RuledGive<R>, RuledTake<R>), NoMemory> {
        ruled_pair::<N, R>(self.rt, alloc, channel, depth, first, blanks)
    }

    fn catch_up(&self, give: &mut RuledGive<R>, take: &mut RuledTake<R>) {
        share_returns(give, take);
        share_tokens(give, take);
        give.refusals = 0;
        take.refusals = 0;
    }

    fn close(
        &mut self,
        give: RuledGive<R>,
        take: RuledTake<R>,
        used: &mut Vec<Token>,
    ) -> Option<Token> {
        self.sent = self.sent.saturating_add(give.sent);
        let RuledGive {
            rt,
            tokens,
            mut pass,
            returns,
            mut return_pass,
            sent: _,
            refusals: _,
        } = give;
        tokens.absorb::<Whole>(&mut pass, take.pass);
        let oldest = tokens.pop_as::<TakesLast, R>(&rt, &mut pass);
        returns.absorb::<ReturnWhole>(&mut return_pass, take.return_pass);
        returns.learn_as::<ReusesLast>(&mut return_pass);
        move_returns::<R>(&rt, &returns, &mut return_pass, used);
        oldest
    }

    fn sent(&self) -> u64 {
        self.sent
    }
}

// Lets each end know the other's count of tokens.
fn share_tokens<R: Wait + Copy>(give: &mut RuledGive<R>, take: &mut RuledTake<R>)
    requires { AreEnds (giver_state give.old) (taker_state take.old) }
    ensures give { giver_state give.new ≡ record (giver_state give.old) { known = (taker_state take.old).taken } }
    ensures take { taker_state take.new ≡ record (taker_state take.old) { known = (giver_state give.old).given } }
    ensures stand { TokensStand (giver_state give.old) (taker_state take.old) }
{
    let idle = give.tokens.another::<Idle>(&mut give.pass);
    let theirs = mem::replace(&mut take.pass, idle);
    give.tokens.absorb::<Whole>(&mut give.pass, theirs);
    give.tokens.learn_as::<Stands>(&mut give.pass);
    let taker_pass = give.tokens.another::<Ends>(&mut give.pass);
    drop(mem::replace(&mut take.pass, taker_pass));
}

// Lets each end know how many tokens the other has reused or returned.
fn share_returns<R: Wait + Copy>(give: &mut RuledGive<R>, take: &mut RuledTake<R>)
    requires { AreEnds (giver_state give.old) (taker_state take.old) }
    ensures give { giver_state give.new
        ≡ record (giver_state give.old) { known_returned = length (taker_state take.old).returned } }
    ensures take { taker_state take.new
        ≡ record (taker_state take.old) { known_reused = length (giver_state give.old).reused } }
    ensures stand { ReturnsStand (giver_state give.old) (taker_state take.old) }
{
    let idle = give.returns.another::<ReturnIdle>(&mut give.return_pass);
    let theirs = mem::replace(&mut take.return_pass, idle);
    give.returns
        .absorb::<ReturnWhole>(&mut give.return_pass, theirs);
    give.returns.learn_as::<ReusesLast>(&mut give.return_pass);
    let taker_return_pass = give.returns.another::<ReturnEnds>(&mut give.return_pass);
    drop(mem::replace(&mut take.return_pass, taker_return_pass));
}

// Appends to `used` all tokens that the queue of returned ones holds, by the one pass that reuses and hands back.
fn move_returns<R: Wait>(
    rt: &R,
    returns: &ReturnQueue,
    pass: &mut Pass<Token, ReturnView>,
    used: &mut Vec<Token>,
)
    requires pass { IsPassOf returns.now pass.old }
    requires both { ((view pass.old).reuses ≡ true) × ((view pass.old).hands_back ≡ true) }
    requires room { vec_len used.old + length (view pass.old).returned
        ≤ vec_capacity used.old + length (view pass.old).reused }
    ensures moved { AreMoved (view pass.old) (view pass.new) used.old.items used.new.items }
    ensures all { (view pass.new).reused ≡ (view pass.old).returned }
    ensures room { vec_capacity used.old ≤ vec_capacity used.new }
{
    while let Some(token) = returns.pop_as::<ReusesLast, R>(rt, pass) {
        match used.push(token) {
            Ok(()) => {}
            Err(_) => unreachable!(),
        }
    }
}
