//! Single tokens: the one that comes first, at the depth where it stands, and those after it.

ghost use Rattle.std.specs.Prelude.{ℕ, ◌≡◌, ◌∷◌, ◌<◌, ◌≤◌, ◌↔◌, IsTrue, IfOk, IfErr, IfSome, MatchOption, length};
ghost use Rattle.vl_tree.specs.Token.{all_coded, literal_of};
ghost use Rattle.vl_tree.specs.Token as k;
ghost use Rattle.vl_tree.specs.Grammar.{mark, word, kind, kind_on, name_at};
ghost use Rattle.vl_module.specs.declared.SynFault.TheVariants as fault;
ghost use Rattle.vl_module.specs.Reading.{Any, Reads, Expects, Finds, FindsTree, NoToken};

use crate::SynFault;
use dt_core::limits::MAX_DEPTH;
use dt_core::text::Text;
use std::alloc::Global;
use vl_tree::token::{Key, Literal, Mark, System, Token, TokenKind};

// Whether two keywords are one.
fn same_key(a: Key, b: Key) -> bool
    ensures { IsTrue result ↔ (a ≡ b) }
{
    a == b
}

// Whether two marks are one.
fn same_mark(a: Mark, b: Mark) -> bool
    ensures { IsTrue result ↔ (a ≡ b) }
{
    a == b
}

// Whether two system names are one.
fn same_system(a: System, b: System) -> bool
    ensures { IsTrue result ↔ (a ≡ b) }
{
    a == b
}

/// The first token and those after it, if a token may stand at this depth.
pub fn next(tokens: &[Token], depth: u32) -> Option<(&Token, &[Token])>
    ensures first { MatchOption result (NoToken depth (all_coded tokens.now)) (λ x. tokens.now ≡ x.0.now ∷ x.1.now) }
    ensures shallow { IfSome result (λ x. depth ≤ 200) }
{
    if depth > MAX_DEPTH {
        return None;
    }
    tokens.split_first()
}

/// The tokens after this keyword, if it comes first.
pub fn behind_key(tokens: &[Token], depth: u32, wanted: Key) -> Option<&[Token]>
    ensures reads { Finds (word depth wanted) (all_coded tokens.now) result }
    ensures shorter { IfSome result (λ rest. length rest.now < length tokens.now) }
    ensures shallow { IfSome result (λ rest. depth ≤ 200) }
{
    let (first, rest) = next(tokens, depth)?;
    match first.kind {
        TokenKind::Key(key) => {
            if same_key(key, wanted) {
                Some(rest)
            } else {
                None
            }
        }
        _ => None,
    }
}

/// The tokens after this mark, if it comes first.
pub fn behind_mark(tokens: &[Token], depth: u32, wanted: Mark) -> Option<&[Token]>
    ensures reads { Finds (mark depth wanted) (all_coded tokens.now) result }
    ensures shorter { IfSome result (λ rest. length rest.now < length tokens.now) }
    ensures shallow { IfSome result (λ rest. depth ≤ 200) }
{
    let (first, rest) = next(tokens, depth)?;
    match first.kind {
        TokenKind::Mark(mark) => {
            if same_mark(mark, wanted) {
                Some(rest)
            } else {
                None
            }
        }
        _ => None,
    }
}

/// The mark that comes first, and the tokens after it.
pub fn first_mark(tokens: &[Token], depth: u32) -> Option<(Mark, &[Token])>
    ensures reads { FindsTree (λ a. a) (mark depth) (all_coded tokens.now) result }
    ensures shorter { IfSome result (λ x. length x.1.now < length tokens.now) }
    ensures shallow { IfSome result (λ x. depth ≤ 200) }
{
    let (first, rest) = next(tokens, depth)?;
    match first.kind {
        TokenKind::Mark(mark) => Some((mark, rest)),
        _ => None,
    }
}

/// The tokens after this keyword, which comes first.
pub fn expect_key(tokens: &[Token], depth: u32, wanted: Key) -> Result<&[Token], SynFault>
    ensures reads { Expects (word depth wanted) (all_coded tokens.now) result }
    ensures certain { IfErr result (λ e. e ≡ fault.NoTree) }
    ensures shorter { IfOk result (λ rest. length rest.now < length tokens.now) }
    ensures shallow { IfOk result (λ rest. depth ≤ 200) }
{
    match behind_key(tokens, depth, wanted) {
        Some(rest) => Ok(rest),
        None => Err(SynFault::NoTree),
    }
}

/// The tokens after this mark, which comes first.
pub fn expect_mark(tokens: &[Token], depth: u32, wanted: Mark) -> Result<&[Token], SynFault>
    ensures reads { Expects (mark depth wanted) (all_coded tokens.now) result }
    ensures certain { IfErr result (λ e. e ≡ fault.NoTree) }
    ensures shorter { IfOk result (λ rest. length rest.now < length tokens.now) }
    ensures shallow { IfOk result (λ rest. depth ≤ 200) }
{
    match behind_mark(tokens, depth, wanted) {
        Some(rest) => Ok(rest),
        None => Err(SynFault::NoTree),
    }
}

/// The line of this system name, which comes first, and the tokens after it.
pub fn read_system(
    tokens: &[Token],
    depth: u32,
    wanted: System,
) -> Result<(u32, &[Token]), SynFault>
    ensures reads { Reads (λ line. line) (λ line. kind_on depth line (k.system wanted)) Any (all_coded tokens.now) result }
    ensures certain { IfErr result (λ e. e ≡ fault.NoTree) }
    ensures shorter { IfOk result (λ x. length x.1.now < length tokens.now) }
    ensures shallow { IfOk result (λ x. depth ≤ 200) }
{
    let Some((first, rest)) = next(tokens, depth) else {
        return Err(SynFault::NoTree);
    };
    match first.kind {
        TokenKind::System(system) => {
            if same_system(system, wanted) {
                Ok((first.line, rest))
            } else {
                Err(SynFault::NoTree)
            }
        }
        _ => Err(SynFault::NoTree),
    }
}

/// The name that comes first, and the tokens after it.
pub fn read_name(alloc: Global, tokens: &[Token], depth: u32) -> Result<(Text, &[Token]), SynFault>
    ensures reads { Reads (λ name. name) (name_at depth) Any (all_coded tokens.now) result }
    ensures shorter { IfOk result (λ x. length x.1.now < length tokens.now) }
    ensures shallow { IfOk result (λ x. depth ≤ 200) }
{
    let Some((first, rest)) = next(tokens, depth) else {
        return Err(SynFault::NoTree);
    };
    match &first.kind {
        TokenKind::Name(name) => {
            let copy = Text::copied(alloc, name.bytes())?;
            Ok((copy, rest))
        }
        _ => Err(SynFault::NoTree),
    }
}

/// The bytes of the string that comes first, and the tokens after it.
pub fn read_string(
    alloc: Global,
    tokens: &[Token],
    depth: u32,
) -> Result<(Text, &[Token]), SynFault>
    ensures reads { Reads (λ text. text) (λ text. kind depth (k.str text)) Any (all_coded tokens.now) result }
    ensures shorter { IfOk result (λ x. length x.1.now < length tokens.now) }
    ensures shallow { IfOk result (λ x. depth ≤ 200) }
{
    let Some((first, rest)) = next(tokens, depth) else {
        return Err(SynFault::NoTree);
    };
    match &first.kind {
        TokenKind::Str(text) => {
            let copy = Text::copied(alloc, text.bytes())?;
            Ok((copy, rest))
        }
        _ => Err(SynFault::NoTree),
    }
}

/// The number that comes first, and the tokens after it.
pub fn read_number(tokens: &[Token], depth: u32) -> Result<(Literal, &[Token]), SynFault>
    ensures reads { Reads literal_of (λ literal. kind depth (k.number literal)) Any (all_coded tokens.now) result }
    ensures certain { IfErr result (λ e. e ≡ fault.NoTree) }
    ensures shorter { IfOk result (λ x. length x.1.now < length tokens.now) }
    ensures shallow { IfOk result (λ x. depth ≤ 200) }
{
    let Some((first, rest)) = next(tokens, depth) else {
        return Err(SynFault::NoTree);
    };
    match first.kind {
        TokenKind::Number(literal) => Ok((literal, rest)),
        _ => Err(SynFault::NoTree),
    }
}
