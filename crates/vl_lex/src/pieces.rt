//! Pieces of a text: white space, an attribute or a token.

ghost use Rattle.std.specs.Prelude.{◌≡◌, ◌^◌, ◌≤◌, ◌<◌, ◌∷◌, ℕ, List, length, IfOk};
ghost use Rattle.vl_lex.specs.Tokens as t;
ghost use Rattle.vl_lex.specs.Calls.Reading.{Stands, StandsAlone};

use crate::attributes::{close_length, opens_attribute};
use crate::faults::Wrong;
use crate::tokens::read_token;
use std::alloc::Global;
use vl_pre::bytes::{after, is_white};
use vl_tree::fault::FaultKind;
use vl_tree::token::TokenKind;

/// A piece of a text: a token, or what is passed over, and how many bytes it has.
#[derive(Drop)]
pub struct Piece {
    pub token: Option<TokenKind>,
    pub used: usize,
}

// The attribute at the head.
fn read_attribute(bytes: &[u8]) -> Result<Piece, FaultKind>
    requires opens { 2 ≤ length bytes.now }
    ensures stands { StandsAlone (t.piece_by t.attribute bytes.now) result }
    ensures used { IfOk result (λ p. (0 < p.used) × (p.used ≤ length bytes.now)) }
{
    match close_length(after(bytes, 2)) {
        Some(count) => Ok(Piece {
            token: None,
            used: count + 2,
        }),
        None => Err(FaultKind::BadToken),
    }
}

/// The piece at the head, by its first byte.
pub fn read_piece(alloc: Global, first: u8, bytes: &[u8]) -> Result<Piece, Wrong>
    requires head { (rest : List ℕ) × (bytes.now ≡ first ∷ rest) }
    ensures stands { Stands (t.piece_at bytes.now) result }
    ensures used { IfOk result (λ p. (0 < p.used) × (p.used ≤ length bytes.now)) }
{
    if is_white(first) {
        return Ok(Piece {
            token: None,
            used: 1,
        });
    }
    if opens_attribute(bytes) {
        return Ok(read_attribute(bytes)?);
    }
    match read_token(alloc, first, bytes) {
        Ok(found) => Ok(Piece {
            token: Some(found.kind),
            used: found.used,
        }),
        Err(wrong) => Err(wrong),
    }
}
