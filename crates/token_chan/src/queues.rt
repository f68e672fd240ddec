//! The two queues of a channel, and its ends.

ghost use Rattle.std.specs.Prelude.{◌≡◌, true};
ghost use Rattle.std.specs.Arc.{arc_value};
ghost use Rattle.crossbeam_queue.specs.Passes.{view, IsPassOf, ruled_capacity};

use crate::rules::{ReturnRule, TokenRule};
use crate::view::{ReturnView, TokenView};
use crossbeam_queue::{Pass, RuledArrayQueue};
use named_run::token::Token;
use std::alloc::Global;
use std::sync::{Arc, Wait};

/// A queue of tokens, from the giver to the taker.
pub type TokenQueue = RuledArrayQueue<Token, TokenView, TokenRule>;

/// A queue of returned tokens, from the taker to the giver.
pub type ReturnQueue = RuledArrayQueue<Token, ReturnView, ReturnRule>;

/// The giving end. `specs/RuledEnds` has its state.
#[derive(Drop)]
pub struct RuledGive<R: Wait + Copy> {
    pub(crate) rt: R,
    pub(crate) tokens: Arc<TokenQueue, Global>,
    pub(crate) pass: Pass<Token, TokenView>,
    pub(crate) returns: Arc<ReturnQueue, Global>,
    pub(crate) return_pass: Pass<Token, ReturnView>,
    pub(crate) sent: u64,
    pub(crate) refusals: u64,
    ghost of: { IsPassOf (arc_value tokens) pass × IsPassOf (arc_value returns) return_pass },
    ghost gives: { (view pass).gives ≡ true },
    ghost deep: { (view pass).name.depth ≡ ruled_capacity (arc_value tokens) },
    ghost reuses: { (view return_pass).reuses ≡ true },
    ghost named: { ∥ (view return_pass).name ≡ (view pass).name ∥₁ },
}

/// The taking end. `specs/RuledEnds` has its state.
#[derive(Drop)]
pub struct RuledTake<R: Wait + Copy> {
    pub(crate) rt: R,
    pub(crate) tokens: Arc<TokenQueue, Global>,
    pub(crate) pass: Pass<Token, TokenView>,
    pub(crate) returns: Arc<ReturnQueue, Global>,
    pub(crate) return_pass: Pass<Token, ReturnView>,
    pub(crate) refusals: u64,
    ghost of: { IsPassOf (arc_value tokens) pass × IsPassOf (arc_value returns) return_pass },
    ghost takes: { (view pass).takes ≡ true },
    ghost hands_back: { (view return_pass).hands_back ≡ true },
    ghost deep: { (view pass).name.depth ≡ ruled_capacity (arc_value returns) },
    ghost named: { ∥ (view return_pass).name ≡ (view pass).name ∥₁ },
}
