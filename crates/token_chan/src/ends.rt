//! What the two ends of a channel can do.

ghost use Rattle.std.specs.Prelude.{◌≡◌, MatchOption, MatchResult};
ghost use Rattle.named_run.specs.Named.{HasShape};
ghost use Rattle.token_chan.specs.Ends.{Giver, Taker, next_given, Gave, NotGiven, CameBlank, CameNone, TookNext};
ghost use Rattle.token_chan.specs.Ends.{TookNone, HandedBack, NotHandedBack};

use named_run::token::Token;

/// The giving end of a channel.
pub trait GiveEnd {
    ghost state: { Self → Giver };

    /// Gives the channel's next token. It comes back only where the channel was full at a moment of the call.
    fn give(&mut self, token: Token) -> Result<(), Token>
        requires { token ≡ next_given (state self.old) }
        ensures { MatchResult result (λ _. Gave (state self.old) (state self.new))
            (NotGiven token (state self.old) (state self.new)) };

    /// A blank: the oldest token that the taker has handed back and that wasn't got since, to be filled anew; none only
    /// where there was none at a moment of the call.
    fn blank(&mut self) -> Option<Token>
        ensures { MatchOption result (CameNone (state self.old) (state self.new))
            (CameBlank (state self.old) (state self.new)) };
}

/// The taking end of a channel.
pub trait TakeEnd {
    ghost state: { Self → Taker };

    /// The channel's oldest token; none only where it was empty at a moment of the call.
    fn take(&mut self) -> Option<Token>
        ensures { MatchOption result (TookNone (state self.old) (state self.new))
            (TookNext (state self.old) (state self.new)) };

    /// Hands back a token that is no longer wanted. It comes back only where there was no room for it at a moment of
    /// the call.
    fn hand_back(&mut self, token: Token) -> Result<(), Token>
        requires { HasShape (state self.old).name.run (state self.old).name.channel token }
        ensures { MatchResult result (λ _. HandedBack token (state self.old) (state self.new))
            (NotHandedBack token (state self.old) (state self.new)) };
}
