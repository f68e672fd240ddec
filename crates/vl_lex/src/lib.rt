//! Tokens: the clean text of a design as the list of what it is spelled of.
//!
//! Below: `vl_pre` (clean text), `vl_tree` (the tokens), `dt_core`. Above: `vl_front`.
//! Promise: `lex` gives exactly the tokens that `specs/Tokens` says, with the line of each, or the first fault with its line. A text has
//! one list of tokens at most, and each token has the longest spelling that begins where it stands (`token_laws`).
//! Not said: that memory is enough.
#![tactic(auto)]

ghost use Rattle.std.specs.Prelude.{◌≡◌, ◌^◌, ◌≤◌, ◌<◌, ◌∷◌, ℕ, List, length, Ok, IfOk, IfErr};
ghost use Rattle.vl_tree.specs.Token.{all_coded};
ghost use Rattle.vl_tree.specs.Fault.{HasFault, fault_of};
ghost use Rattle.vl_pre.specs.Bytes.{joined};
ghost use Rattle.vl_lex.specs.Tokens.{tokens_of, piece_at};
ghost use Rattle.vl_lex.specs.Laws.Spelled.{ComputesTokens, HaveOneList, TakesLongest};
ghost use Rattle.vl_lex.specs.Calls.Reading.{Pushes, Takes, Steps};

mod attributes;
mod digits;
mod faults;
mod numbers;
mod pieces;
mod strings;
mod tokens;
mod words;

use dt_core::limits::MAX_TOKENS;
use faults::in_tokens;
use pieces::{Piece, read_piece};
use std::alloc::Global;
use vl_pre::Clean;
use vl_tree::fault::{FaultKind, StaticFault};
use vl_tree::token::Token;

// Appends a token, unless there are as many as there may be.
fn push(tokens: &mut Vec<Token>, token: Token) -> Result<(), StaticFault>
    ensures { Pushes tokens.old.items token tokens.new.items result }
{
    if tokens.len() >= MAX_TOKENS as usize {
        return Err(in_tokens(FaultKind::TooManyTokens, token.line));
    }
    match tokens.push(token) {
        Ok(()) => Ok(()),
        Err(_) => Err(StaticFault::Memory),
    }
}

// Appends the token of a piece that begins on this line, if it has one, and answers how many bytes the piece has.
fn take(tokens: &mut Vec<Token>, line: u32, piece: Piece) -> Result<usize, StaticFault>
    ensures { Takes tokens.old.items line piece.token piece.used tokens.new.items result }
{
    let used = piece.used;
    let token = piece.token;
    match token {
        None => Ok(used),
        Some(kind) => {
            push(tokens, Token { line, kind })?;
            Ok(used)
        }
    }
}

// Takes the piece at the head of these bytes, which begin on this line, and answers how many bytes it has.
fn step(
    alloc: Global,
    tokens: &mut Vec<Token>,
    line: u32,
    bytes: &[u8],
) -> Result<usize, StaticFault>
    requires some { 0 < length bytes.now }
    ensures steps { Steps tokens.old.items line (piece_at bytes.now) tokens.new.items result }
    ensures used { IfOk result (λ n. (0 < n) × (n ≤ length bytes.now)) }
{
    match read_piece(alloc, bytes[0], bytes) {
        Ok(piece) => take(tokens, line, piece),
        Err(wrong) => Err(wrong.on_line(line)),
    }
}

// The tokens of bytes with a line for each.
fn lex_lines(alloc: Global, bytes: &[u8], lines: &[u32]) -> Result<Vec<Token>, StaticFault>
    requires { length bytes.now ≡ length lines.now }
    ensures tokens { IfOk result (λ v. tokens_of (joined bytes.now lines.now) ≡ Ok (all_coded v.items)) }
    ensures few { IfOk result (λ v. length v.items ≤ MAX_TOKENS) }
    ensures fault { IfErr result (λ e. HasFault (tokens_of (joined bytes.now lines.now)) (fault_of e)) }
{
    let mut tokens = Vec::new(alloc);
    let mut at = 0;
    while at < bytes.len() {
        at += step(alloc, &mut tokens, lines[at], bytes.split_at(at).1)?;
    }
    Ok(tokens)
}

/// The tokens of a clean text, or its first fault.
pub fn lex(alloc: Global, clean: &Clean) -> Result<Vec<Token>, StaticFault>
    ensures tokens { IfOk result (λ v. tokens_of clean.now ≡ Ok (all_coded v.items)) }
    ensures few { IfOk result (λ v. length v.items ≤ MAX_TOKENS) }
    ensures fault { IfErr result (λ e. HasFault (tokens_of clean.now) (fault_of e)) }
{
    lex_lines(alloc, clean.bytes(), clean.lines())
}

/// Laws of the definition: what is computed is what the text is spelled of, in both directions; a text has one list of tokens at most;
/// each token has the longest spelling that begins where it stands.
pub fn token_laws()
    ensures computes { ComputesTokens }
    ensures one { HaveOneList }
    ensures longest { TakesLongest }
{}
