//! What makes channels.

ghost use Rattle.std.specs.Prelude.{◌≡◌, ◌+◌, ◌≤◌, ℕ, min, All, IfOk, length, vec_len, vec_capacity};
ghost use Rattle.named_run.specs.Named.{HasShape, token_of};
ghost use Rattle.token_chan.specs.Names.{name_of};
ghost use Rattle.token_chan.specs.Ends.{Giver, Taker, AreEnds, AreNewEnds, giver_caught_up, taker_caught_up};
ghost use Rattle.token_chan.specs.Ends.{TokensStand, ReturnsStand, IsClosed, last_count};

use crate::ends::{GiveEnd, TakeEnd};
use dt_core::fault::NoMemory;
use named_run::run::RunName;
use named_run::token::Token;
use std::alloc::Global;

/// The most tokens that a channel holds.
pub const MAX_TOKENS_HELD: u32 = 64;

/// Makes channels, and counts the tokens that were sent over those that it closed.
pub trait Pairs: Send {
    type Give: GiveEnd + Send + Drop;

    type Take: TakeEnd + Send + Drop;

    ghost sent: { Self → ℕ };

    /// A channel that holds the token `first`, of the cycle that it names, and the tokens `blanks`, to be filled, for
    /// the rest of its depth.
    fn pair<N: RunName>(
        &self,
        alloc: Global,
        channel: u32,
        depth: u32,
        first: Token,
        blanks: Vec<Token>,
    ) -> Result<(Self::Give, Self::Take), NoMemory>
        requires depth { (2 ≤ depth) × (depth ≤ MAX_TOKENS_HELD) }
        requires first { first ≡ token_of N.run channel first.cycle }
        requires count { length blanks.items + 1 ≡ depth }
        requires blanks { All (HasShape N.run channel) blanks.items }
        ensures { IfOk result (λ ends. AreNewEnds (name_of N.run channel depth) first.cycle blanks.items
            (Self.Give.GiveEnd.state ends.0) (Self.Take.TakeEnd.state ends.1)) };

    /// Lets each end know the other's counts as they are, and begin to count refusals anew. It tells how the two stand.
    fn catch_up(&self, give: &mut Self::Give, take: &mut Self::Take)
        requires { AreEnds (Self.Give.GiveEnd.state give.old) (Self.Take.TakeEnd.state take.old) }
        ensures give { Self.Give.GiveEnd.state give.new
            ≡ giver_caught_up (Self.Give.GiveEnd.state give.old) (Self.Take.TakeEnd.state take.old) }
        ensures take { Self.Take.TakeEnd.state take.new
            ≡ taker_caught_up (Self.Give.GiveEnd.state give.old) (Self.Take.TakeEnd.state take.old) }
        ensures tokens { TokensStand (Self.Give.GiveEnd.state give.old) (Self.Take.TakeEnd.state take.old) }
        ensures returns { ReturnsStand (Self.Give.GiveEnd.state give.old) (Self.Take.TakeEnd.state take.old) };

    /// The oldest token of the channel; those after it are dropped. All that were returned and wait to be reused are
    /// appended to `used`, which has room for as many as the channel's depth. What the giver has given is counted as
    /// sent.
    fn close(&mut self, give: Self::Give, take: Self::Take, used: &mut Vec<Token>) -> Option<Token>
        requires ends { AreEnds (Self.Give.GiveEnd.state give) (Self.Take.TakeEnd.state take) }
        requires room { vec_len used.old + (Self.Give.GiveEnd.state give).name.depth ≤ vec_capacity used.old }
        ensures tokens { IsClosed (Self.Give.GiveEnd.state give) (Self.Take.TakeEnd.state take) result
            used.old.items used.new.items }
        ensures room { vec_capacity used.old ≤ vec_capacity used.new }
        ensures sent { sent self.new ≡ min (sent self.old + (Self.Give.GiveEnd.state give).sent) last_count };

    /// How many tokens were sent over the channels that were closed.
    fn sent(&self) -> u64
        ensures { result ≡ sent self.now };
}
