//! A place in a list of tokens, and the single tokens there.

ghost use Rattle.std.specs.Prelude.{◌≡◌, ◌∷◌, [], ◌↔◌, ◌<◌, ◌≤◌, ◌-◌, ◌^◌, drop, length};
ghost use Rattle.std.specs.Prelude.{IsTrue, IfOk, IfSome, MatchOption};
ghost use Rattle.vl_tree.specs.Token as k;
ghost use Rattle.vl_tree.specs.Token.{all_coded, coded_kind};
ghost use Rattle.vl_tree.specs.SyntaxView.{place};
ghost use Rattle.vl_tree.specs.Placed.{placed, at};
ghost use Rattle.vl_read.specs.Tokens.{Finds, Expects, Passes, ExpectsName};

use crate::fault::Fault;
use dt_core::place::Place;
use dt_core::text::Text;
use std::alloc::Global;
use std::marker::Model;
use vl_tree::expression::Name;
use vl_tree::token::{Key, Mark, Token, TokenKind};

/// A place in a list of tokens from which it is read on. A contract sees the tokens from there on, each with its place.
#[derive(Drop)]
pub struct Cursor<'a> {
    tokens: &'a [Token],
    first: u32,
}

impl<'a> Model for Cursor<'a> {
    ghost use Rattle.std.specs.Prelude.{List, ◌+◌, ◌<◌, ◌^◌, length};
    ghost use Rattle.vl_tree.specs.Token.{all_coded};
    ghost use Rattle.vl_tree.specs.Placed.{Placed, placed};

    ghost Value = { List Placed };

    ghost view = { λ c. placed c.first (all_coded c.tokens.now) };

    ghost invariant = { λ c. c.first + length c.tokens.now < 2 ^ 32 };
}

impl<'a> Cursor<'a> {
    /// The begin of a list.
    pub fn over(tokens: &'a [Token]) -> Cursor<'a>
        requires { length tokens.now < 2 ^ 32 - 1 }
        ensures { result ≡ placed 0 (all_coded tokens.now) }
    {
        Cursor { tokens, first: 0 }
    }

    /// The token of this number, and those after it.
    #[tactic(auto, using(crate::proofs::TokenRules::coded_drop))]
    pub fn starting_at(tokens: &'a [Token], at: u32) -> Cursor<'a>
        requires { (at ≤ length tokens.now) × (length tokens.now < 2 ^ 32 - 1) }
        ensures { result ≡ placed at (drop at (all_coded tokens.now)) }
    {
        Cursor {
            tokens: tokens.split_at(at as usize).1,
            first: at,
        }
    }

    /// How many tokens are left.
    #[tactic(auto, using(crate::proofs::TokenRules::left_is))]
    pub fn left(&self) -> usize
        ensures { result ≡ length self.now }
    {
        self.tokens.len()
    }

    /// The first token, its place, and the tokens after it.
    pub fn next(&self) -> Option<(&'a Token, Place, Cursor<'a>)>
        ensures { MatchOption result (self.now ≡ []) (λ x. self.now ≡ at (coded_kind x.0.now.kind) (place x.1) ∷ x.2) }
    {
        let (token, rest) = self.tokens.split_first()?;
        let place = Place {
            token: self.first,
            line: token.line,
        };
        let after = Cursor {
            tokens: rest,
            first: self.first + 1,
        };
        Some((token, place, after))
    }

    /// The place of this keyword and the tokens after it, if it comes first.
    pub fn find_key(&self, wanted: Key) -> Option<(Place, Cursor<'a>)>
        ensures reads { Finds (k.key wanted) self.now result }
        ensures shorter { IfSome result (λ x. length x.1 < length self.now) }
    {
        let (token, place, after) = self.next()?;
        match token.kind {
            TokenKind::Key(key) => {
                if same_key(key, wanted) {
                    Some((place, after))
                } else {
                    None
                }
            }
            _ => None,
        }
    }

    /// The place of this mark and the tokens after it, if it comes first.
    pub fn find_mark(&self, wanted: Mark) -> Option<(Place, Cursor<'a>)>
        ensures reads { Finds (k.mark wanted) self.now result }
        ensures shorter { IfSome result (λ x. length x.1 < length self.now) }
    {
        let (token, place, after) = self.next()?;
        match token.kind {
            TokenKind::Mark(mark) => {
                if same_mark(mark, wanted) {
                    Some((place, after))
                } else {
                    None
                }
            }
            _ => None,
        }
    }

    /// The place of this keyword, which comes first, and the tokens after it.
    pub fn expect_key(&self, wanted: Key) -> Result<(Place, Cursor<'a>), Fault>
        ensures reads { Expects (k.key wanted) self.now result }
        ensures shorter { IfOk result (λ x. length x.1 < length self.now) }
    {
        match self.find_key(wanted) {
            Some(found) => Ok(found),
            None => Err(Fault::At(self.left())),
        }
    }

    /// The place of this mark, which comes first, and the tokens after it.
    pub fn expect_mark(&self, wanted: Mark) -> Result<(Place, Cursor<'a>), Fault>
        ensures reads { Expects (k.mark wanted) self.now result }
        ensures shorter { IfOk result (λ x. length x.1 < length self.now) }
    {
        match self.find_mark(wanted) {
            Some(found) => Ok(found),
            None => Err(Fault::At(self.left())),
        }
    }

    /// The tokens after this keyword, which comes first.
    pub fn pass_key(&self, wanted: Key) -> Result<Cursor<'a>, Fault>
        ensures reads { Passes (k.key wanted) self.now result }
        ensures shorter { IfOk result (λ rest. length rest < length self.now) }
    {
        match self.find_key(wanted) {
            Some((_, rest)) => Ok(rest),
            None => Err(Fault::At(self.left())),
        }
    }

    /// The tokens after this mark, which comes first.
    pub fn pass_mark(&self, wanted: Mark) -> Result<Cursor<'a>, Fault>
        ensures reads { Passes (k.mark wanted) self.now result }
        ensures shorter { IfOk result (λ rest. length rest < length self.now) }
    {
        match self.find_mark(wanted) {
            Some((_, rest)) => Ok(rest),
            None => Err(Fault::At(self.left())),
        }
    }

    /// The name that comes first, and the tokens after it.
    pub fn expect_name(&self, alloc: Global) -> Result<(Name, Cursor<'a>), Fault>
        ensures reads { ExpectsName self.now result }
        ensures shorter { IfOk result (λ x. length x.1 < length self.now) }
    {
        let Some((token, place, after)) = self.next() else {
            return Err(Fault::At(self.left()));
        };
        match &token.kind {
            TokenKind::Name(name) => {
                let text = Text::copied(alloc, name.bytes())?;
                Ok((Name { text, place }, after))
            }
            _ => Err(Fault::At(self.left())),
        }
    }
}

// Whether two keywords are one.
fn same_key(a: Key, b: Key) -> bool
    ensures { IsTrue result ↔ (a ≡ b) }
{
    a == b
}

// Whether two marks are one.
fn same_mark(a: Mark, b: Mark) -> bool
    ensures { IsTrue result ↔ (a ≡ b) }
{
    a == b
}
