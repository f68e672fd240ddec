//! The rules of a channel's two queues, and the names of their steps.

ghost use Rattle.std.specs.Prelude.{◌≡◌, true, length, []};
ghost use Rattle.token_chan.specs.Names.{Name, no_name};
ghost use Rattle.token_chan.specs.TokenRule.{Holds, names, gives, takes, full_then, empty_then, counted, stands};
ghost use Rattle.token_chan.specs.TokenRule.{whole_view, joined_view, giver_view, taker_view, idle_view};
ghost use Rattle.token_chan.specs.ReturnRule.{ReturnsHold, both_view, giver_return_view, taker_return_view};
ghost use Rattle.token_chan.specs.ReturnRule.{idle_return, hands_back, reuses, no_room_then, none_returned_then};
ghost use Rattle.token_chan.specs.ReturnRule.{returns_stand};

use crate::view::{ReturnView, TokenView};
use crossbeam_queue::protocol::{Join, Lesson, Outcome, Protocol, Split};
use named_run::token::Token;
use std::marker::{Brand, PhantomData};

/// The run, the number and the depth of a channel, for contracts.
pub trait ChannelName {
    ghost name: { Name };
}

impl ChannelName for Brand {
    ghost name = { no_name };
}

/// The rule of the queue of tokens.
pub struct TokenRule;

impl Protocol<Token, TokenView> for TokenRule {
    ghost holds = { Holds };

    ghost first = { whole_view no_name 0 0 };
}

/// The first token is given, and the channel is named.
pub struct Names<C> {
    of: PhantomData<C>,
}

impl<C: ChannelName> Outcome<Token, TokenView> for Names<C> {
    ghost then = { names C.name };
}

impl<C> Lesson<Token, TokenView> for Names<C> {
    ghost fact = { counted };
}

/// A token is given.
pub struct Gives;

impl Outcome<Token, TokenView> for Gives {
    ghost then = { gives };
}

impl Lesson<Token, TokenView> for Gives {
    ghost fact = { full_then };
}

/// A token is taken.
pub struct Takes;

impl Outcome<Token, TokenView> for Takes {
    ghost then = { takes };
}

impl Lesson<Token, TokenView> for Takes {
    ghost fact = { empty_then };
}

/// A token is taken by who gives as well.
pub struct TakesLast;

impl Outcome<Token, TokenView> for TakesLast {
    ghost then = { takes };
}

impl Lesson<Token, TokenView> for TakesLast {
    ghost fact = { counted };
}

/// What one pass that gives and takes knows of the tokens.
pub struct Stands;

impl Lesson<Token, TokenView> for Stands {
    ghost fact = { stands };
}

/// The two ends get a pass each, and know each other's count.
pub struct Ends;

impl Split<TokenView> for Ends {
    ghost left = { λ v. giver_view v.name v.given v.taken };

    ghost right = { λ v. taker_view v.name v.taken v.given };
}

/// A pass that knows nothing.
pub struct Idle;

impl Split<TokenView> for Idle {
    ghost left = { λ v. v };

    ghost right = { λ _. idle_view };
}

/// The giver's pass takes in the taker's.
pub struct Whole;

impl Join<TokenView> for Whole {
    ghost both = { λ v w. joined_view v.name v.given w.taken w.knows_given v.knows_taken };

    ghost spent = { idle_view };
}

/// The rule of the queue of returned tokens.
pub struct ReturnRule;

impl Protocol<Token, ReturnView> for ReturnRule {
    ghost holds = { ReturnsHold };

    ghost first = { both_view no_name [] [] 0 0 };
}

/// The channel is named, while there is no returned token.
pub struct NamesReturns<C> {
    of: PhantomData<C>,
}

impl<C: ChannelName> Split<ReturnView> for NamesReturns<C> {
    ghost left = { λ _. both_view C.name [] [] 0 0 };

    ghost right = { λ _. idle_return };
}

/// The taker hands a token back.
pub struct HandsBack;

impl Outcome<Token, ReturnView> for HandsBack {
    ghost then = { hands_back };
}

impl Lesson<Token, ReturnView> for HandsBack {
    ghost fact = { no_room_then };
}

/// The giver gets the oldest token that was handed back.
pub struct Reuses;

impl Outcome<Token, ReturnView> for Reuses {
    ghost then = { reuses };
}

impl Lesson<Token, ReturnView> for Reuses {
    ghost fact = { none_returned_then };
}

/// The same by who hands tokens back as well.
pub struct ReusesLast;

impl Outcome<Token, ReturnView> for ReusesLast {
    ghost then = { reuses };
}

impl Lesson<Token, ReturnView> for ReusesLast {
    ghost fact = { returns_stand };
}

/// The two ends get a pass each, and know how many the other has reused or returned.
pub struct ReturnEnds;

impl Split<ReturnView> for ReturnEnds {
    ghost left = { λ v. giver_return_view v.name v.reused (length v.returned) };

    ghost right = { λ v. taker_return_view v.name v.returned (length v.reused) };
}

/// A pass that knows nothing of the returned tokens.
pub struct ReturnIdle;

impl Split<ReturnView> for ReturnIdle {
    ghost left = { λ v. v };

    ghost right = { λ _. idle_return };
}

/// The giver's pass takes in the taker's.
pub struct ReturnWhole;

impl Join<ReturnView> for ReturnWhole {
    ghost both = { λ v w. both_view v.name v.reused w.returned v.knows_returned w.knows_reused };

    ghost spent = { idle_return };
}
