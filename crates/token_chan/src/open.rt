//! How a channel over queues under a rule begins.

ghost use Rattle.std.specs.Prelude.{◌≡◌, ◌+◌, ◌≤◌, ℕ, All, IfOk, length};
ghost use Rattle.crossbeam_queue.specs.Passes.{view, IsPassOf, ruled_capacity};
ghost use Rattle.named_run.specs.Named.{HasShape, token_of};
ghost use Rattle.token_chan.specs.TokenRule.{whole_view};
ghost use Rattle.token_chan.specs.ReturnRule.{IsFilled};
ghost use Rattle.token_chan.specs.Names.{name_of};
ghost use Rattle.token_chan.specs.Ends.{AreNewEnds};
ghost use Rattle.token_chan.specs.RuledEnds.{giver_state, taker_state};

use crate::pairs::MAX_TOKENS_HELD;
use crate::queues::{ReturnQueue, RuledGive, RuledTake, TokenQueue};
use crate::rules::{ChannelName, Ends, HandsBack, Names, NamesReturns, ReturnEnds};
use crate::view::{ReturnView, TokenView};
use crossbeam_queue::Pass;
use dt_core::fault::NoMemory;
use named_run::run::RunName;
use named_run::token::Token;
use std::alloc::Global;
use std::marker::Brand;
use std::sync::{Arc, Wait};

// A queue that holds a channel's first token.
fn open_tokens<C: ChannelName, R: Wait>(
    rt: &R,
    alloc: Global,
    depth: u32,
    first: Token,
) -> Result<(TokenQueue, Pass<Token, TokenView>), NoMemory>
    requires depth { (2 ≤ depth) × (C.name.depth ≡ depth) }
    requires first { first ≡ token_of C.name.run C.name.channel first.cycle }
    ensures { IfOk result (λ r. IsPassOf r.0 r.1 × (ruled_capacity r.0 ≡ depth)
        × (view r.1 ≡ whole_view C.name (first.cycle + 1) first.cycle)) }
{
    let (tokens, mut pass) = TokenQueue::ruled(alloc, depth as usize)?;
    match tokens.push_as::<Names<C>, R>(rt, &mut pass, first) {
        Ok(()) => Ok((tokens, pass)),
        Err(_) => unreachable!(),
    }
}

// A queue that holds a channel's first blanks as returned tokens.
fn open_returns<C: ChannelName, R: Wait>(
    rt: &R,
    alloc: Global,
    depth: u32,
    blanks: Vec<Token>,
) -> Result<(ReturnQueue, Pass<Token, ReturnView>), NoMemory>
    requires depth { C.name.depth ≡ depth }
    requires count { length blanks.items + 1 ≡ depth }
    requires blanks { All (HasShape C.name.run C.name.channel) blanks.items }
    ensures queue { IfOk result (λ r. IsPassOf r.0 r.1 × (ruled_capacity r.0 ≡ depth)) }
    ensures rule { IfOk result (λ r. IsFilled C.name blanks.items (view r.1)) }
{
    let (returns, mut pass) = ReturnQueue::ruled(alloc, depth as usize)?;
    drop(returns.another::<NamesReturns<C>>(&mut pass));
    for blank in blanks {
        match returns.push_as::<HandsBack, R>(rt, &mut pass, blank) {
            Ok(()) => {}
            Err(_) => unreachable!(),
        }
    }
    Ok((returns, pass))
}

// A channel whose name is C's.
fn open<C: ChannelName, R: Wait + Copy>(
    rt: R,
    alloc: Global,
    channel: u32,
    depth: u32,
    first: Token,
    blanks: Vec<Token>,
) -> Result<(RuledGive<R>, RuledTake<R>), NoMemory>
    requires depth { (2 ≤ depth) × (C.name.depth ≡ depth) }
    requires first { first ≡ token_of C.name.run C.name.channel first.cycle }
    requires count { length blanks.items + 1 ≡ depth }
    requires blanks { All (HasShape C.name.run C.name.channel) blanks.items }
    ensures { IfOk result (λ ends.
        AreNewEnds C.name first.cycle blanks.items (giver_state ends.0) (taker_state ends.1)) }
{
    let (tokens, mut pass) = open_tokens::<C, R>(&rt, alloc, depth, first)?;
    let (returns, mut return_pass) = open_returns::<C, R>(&rt, alloc, depth, blanks)?;
    let taker_pass = tokens.another::<Ends>(&mut pass);
    let taker_return_pass = returns.another::<ReturnEnds>(&mut return_pass);
    let Ok(tokens) = Arc::new(alloc, tokens) else {
        return Err(NoMemory);
    };
    let taker_tokens = Arc::try_clone(&tokens)?;
    let Ok(returns) = Arc::new(alloc, returns) else {
        return Err(NoMemory);
    };
    let taker_returns = Arc::try_clone(&returns)?;
    let give = RuledGive {
        rt,
        tokens,
        pass,
        returns,
        return_pass,
        sent: 0,
        refusals: 0,
    };
    let take = RuledTake {
        rt,
        tokens: taker_tokens,
        pass: taker_pass,
        returns: taker_returns,
        return_pass: taker_return_pass,
        refusals: 0,
    };
    Ok((give, take))
}

/// A channel over two queues under a rule. `Pairs::pair` says what it promises.
pub fn ruled_pair<N: RunName, R: Wait + Copy>(
    rt: R,
    alloc: Global,
    channel: u32,
    depth: u32,
    first: Token,
    blanks: Vec<Token>,
) -> Result<(RuledGive<R>, RuledTake<R>), NoMemory>
    requires depth { (2 ≤ depth) × (depth ≤ MAX_TOKENS_HELD) }
    requires first { first ≡ token_of N.run channel first.cycle }
    requires count { length blanks.items + 1 ≡ depth }
    requires blanks { All (HasShape N.run channel) blanks.items }
    ensures { IfOk result (λ ends. AreNewEnds (name_of N.run channel depth) first.cycle blanks.items
        (giver_state ends.0) (taker_state ends.1)) }
{
    open::<Brand, R>(rt, alloc, channel, depth, first, blanks)
}
