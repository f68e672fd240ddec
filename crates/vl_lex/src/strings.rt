//! Strings: the bytes that they stand for.

ghost use Rattle.std.specs.Prelude.{◌≡◌, ◌+◌, ◌^◌, ◌≤◌, ◌<◌, ◌∷◌, length, take, IfOk, IfSome};
ghost use Rattle.std.specs.List.{prefix_len};
ghost use Rattle.vl_lex.specs.Strings as s;
ghost use Rattle.vl_lex.specs.Calls.Reading.{IsCharacter, IsCharacterOrEnd, Quotes};

use crate::digits::digits_value;
use crate::faults::Wrong;
use dt_core::text::Text;
use std::alloc::Global;
use vl_pre::bytes::{after, ends_line, next};
use vl_tree::fault::FaultKind;

/// A byte of a string and how many bytes spell it.
#[derive(Clone, Copy)]
pub struct Character {
    pub byte: u8,
    pub used: usize,
}

/// A string and how many bytes its spelling has after its first quote.
#[derive(Drop)]
pub struct Quoted {
    pub text: Text,
    pub used: usize,
}

fn is_octal(byte: u8) -> bool
    ensures { result ≡ s.is_octal byte }
{
    byte >= b'0' && byte <= b'7'
}

// How many octal digits stand at the head, of three at most.
fn count_octal(bytes: &[u8]) -> usize
    ensures count { result ≡ prefix_len s.is_octal (take 3 bytes.now) }
    ensures within { result ≤ length bytes.now }
{
    bytes
        .iter()
        .take(3)
        .take_while(|byte| is_octal(**byte))
        .count()
}

// The byte of an octal escape, whose backslash stands before these bytes.
fn octal_escape(bytes: &[u8]) -> Option<Character>
    ensures character { IsCharacter (s.octal_escape bytes.now) result }
    ensures used { IfSome result (λ p. (0 < p.used) × (p.used ≤ length bytes.now)) }
{
    let used = count_octal(bytes);
    let value = digits_value(8, bytes.split_at(used).0)?;
    if used == 0 || value >= 256 {
        return None;
    }
    Some(Character {
        byte: value as u8,
        used,
    })
}

// The byte of an escape, whose backslash stands before these bytes.
fn escape(bytes: &[u8]) -> Option<Character>
    ensures character { IsCharacter (s.escape bytes.now) result }
    ensures used { IfSome result (λ p. (0 < p.used) × (p.used ≤ length bytes.now)) }
{
    let (first, _) = next(bytes)?;
    if first == b'n' {
        return Some(Character { byte: 10, used: 1 });
    }
    if first == b't' {
        return Some(Character { byte: 9, used: 1 });
    }
    if first == b'\\' || first == b'"' {
        return Some(Character {
            byte: first,
            used: 1,
        });
    }
    octal_escape(bytes)
}

// Why no escape stands after a backslash.
fn no_escape(bytes: &[u8]) -> FaultKind
    ensures { result ≡ s.no_escape bytes.now }
{
    if bytes.is_empty() {
        FaultKind::OpenString
    } else {
        FaultKind::BadToken
    }
}

// The character of a string at the head: a byte, or none at the closing quote.
fn character_at(bytes: &[u8]) -> Result<Option<Character>, FaultKind>
    ensures character { IsCharacterOrEnd (s.character_at bytes.now) result }
    ensures used { IfOk result (λ o. IfSome o (λ p. (0 < p.used) × (p.used ≤ length bytes.now))) }
    ensures some { IfOk result (λ o. 0 < length bytes.now) }
{
    if ends_line(bytes) {
        return Err(FaultKind::OpenString);
    }
    let Some((first, after)) = next(bytes) else {
        return Err(FaultKind::OpenString);
    };
    if first == b'"' {
        return Ok(None);
    }
    if first != b'\\' {
        return Ok(Some(Character {
            byte: first,
            used: 1,
        }));
    }
    match escape(after) {
        Some(character) => Ok(Some(Character {
            byte: character.byte,
            used: character.used + 1,
        })),
        None => Err(no_escape(after)),
    }
}

/// The string after its first quote.
pub fn read_string(alloc: Global, bytes: &[u8]) -> Result<Quoted, Wrong>
    ensures quotes { Quotes (s.string_at bytes.now) result }
    ensures used { IfOk result (λ x. (0 < x.used) × (x.used ≤ length bytes.now)) }
{
    let Ok(mut text) = Text::new(alloc) else {
        return Err(Wrong::Memory);
    };
    let mut rest = bytes;
    while let Some(character) = character_at(rest)? {
        if text.push(character.byte).is_err() {
            return Err(Wrong::Memory);
        }
        rest = after(rest, character.used);
    }
    Ok(Quoted {
        text,
        used: bytes.len() - rest.len() + 1,
    })
}
