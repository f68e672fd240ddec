//! What an end of a channel knows, for contracts alone: no value of it is made.

ghost use Rattle.std.specs.Prelude.{ℕ, Bool, List};
ghost use Rattle.std.specs.Borrow.{ftrue};
ghost use Rattle.named_run.specs.declared.token.Token.{Token};
ghost use Rattle.token_chan.specs.Names.{Name};

use std::marker::Model;

/// Whether it gives or takes; the channel; how many tokens were given and taken; and how many the taker knows to be
/// given and the giver to be taken.
pub struct TokenView {
    pub ghost gives: { Bool },
    pub ghost takes: { Bool },
    pub ghost name: { Name },
    pub ghost given: { ℕ },
    pub ghost taken: { ℕ },
    pub ghost knows_given: { ℕ },
    pub ghost knows_taken: { ℕ },
}

impl Model for TokenView {
    ghost also_owns = { λ _. ftrue };
}

/// Of the queue of returned tokens: whether it reuses tokens or hands them back; the channel; which tokens were reused
/// and which returned, oldest first; and how many the giver knows to be returned and the taker to be reused.
pub struct ReturnView {
    pub ghost reuses: { Bool },
    pub ghost hands_back: { Bool },
    pub ghost name: { Name },
    pub ghost reused: { List Token },
    pub ghost returned: { List Token },
    pub ghost knows_returned: { ℕ },
    pub ghost knows_reused: { ℕ },
}

impl Model for ReturnView {
    ghost also_owns = { λ _. ftrue };
}
