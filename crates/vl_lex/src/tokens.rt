//! One token: which kind stands at the head of the bytes that are left.

ghost use Rattle.std.specs.Prelude.{◌≡◌, ◌+◌, ◌^◌, ◌≤◌, ◌<◌, ◌∷◌, ℕ, List, length, IfOk};
ghost use Rattle.vl_tree.specs.Token.{coded_kind};
ghost use Rattle.vl_pre.specs.Bytes as b;
ghost use Rattle.vl_lex.specs.Words.{marks};
ghost use Rattle.std.specs.List.{prefix_len};
ghost use Rattle.vl_lex.specs.Tokens as t;
ghost use Rattle.vl_lex.specs.Numbers.{number_at};
ghost use Rattle.vl_lex.specs.Strings.{string_at};
ghost use Rattle.vl_lex.specs.Calls.Reading.{Spells, SpellsAlone};

use crate::faults::Wrong;
use crate::numbers::read_number;
use crate::strings::read_string;
use crate::words::{keyword, mark_at, system_name};
use dt_core::fault::NoMemory;
use dt_core::limits::MAX_NAME;
use dt_core::text::Text;
use std::alloc::Global;
use vl_pre::bytes::{after, begins_name, is_digit, name_length};
use vl_tree::fault::FaultKind;
use vl_tree::token::{System, TokenKind};

/// What a token is, and how many bytes its spelling has.
#[derive(Drop)]
pub struct Found {
    pub kind: TokenKind,
    pub used: usize,
}

fn is_in_escaped_name(byte: u8) -> bool
    ensures { result ≡ t.is_in_escaped byte }
{
    byte >= 33 && byte <= 126
}

// How many bytes the escaped name after a backslash has.
fn escaped_length(bytes: &[u8]) -> usize
    ensures count { result ≡ prefix_len t.is_in_escaped bytes.now }
    ensures within { result ≤ length bytes.now }
{
    bytes
        .iter()
        .take_while(|byte| is_in_escaped_name(**byte))
        .count()
}

// A keyword or a name.
fn word_kind(alloc: Global, word: &[u8]) -> Result<TokenKind, NoMemory>
    ensures { IfOk result (λ k. coded_kind k ≡ t.word_kind word.now) }
{
    match keyword(word) {
        Some(key) => Ok(TokenKind::Key(key)),
        None => Ok(TokenKind::Name(Text::copied(alloc, word)?)),
    }
}

// The name or keyword at the head.
fn read_name(alloc: Global, bytes: &[u8]) -> Result<Found, Wrong>
    requires { 0 < b.name_length bytes.now }
    ensures spells { Spells (t.name_token bytes.now) result }
    ensures used { IfOk result (λ f. (0 < f.used) × (f.used ≤ length bytes.now)) }
{
    let used = name_length(bytes);
    if used > MAX_NAME {
        return Err(Wrong::Bad(FaultKind::BadToken));
    }
    match word_kind(alloc, bytes.split_at(used).0) {
        Ok(kind) => Ok(Found { kind, used }),
        Err(_) => Err(Wrong::Memory),
    }
}

// The escaped name after its backslash.
fn read_escaped(alloc: Global, bytes: &[u8]) -> Result<Found, Wrong>
    ensures spells { Spells (t.escaped_token bytes.now) result }
    ensures used { IfOk result (λ f. (0 < f.used) × (f.used ≤ length bytes.now + 1)) }
{
    let count = escaped_length(bytes);
    if count == 0 || count > MAX_NAME {
        return Err(Wrong::Bad(FaultKind::BadToken));
    }
    match Text::copied(alloc, bytes.split_at(count).0) {
        Ok(name) => Ok(Found {
            kind: TokenKind::Name(name),
            used: count + 1,
        }),
        Err(_) => Err(Wrong::Memory),
    }
}

// The system name after its `$`.
fn read_system(bytes: &[u8]) -> Result<Found, FaultKind>
    ensures spells { SpellsAlone (t.system_token bytes.now) result }
    ensures used { IfOk result (λ f. (0 < f.used) × (f.used ≤ length bytes.now + 1)) }
{
    let count = name_length(bytes);
    if count == 0 || count > MAX_NAME {
        return Err(FaultKind::BadToken);
    }
    let system = system_name(bytes.split_at(count).0).unwrap_or(System::Other);
    Ok(Found {
        kind: TokenKind::System(system),
        used: count + 1,
    })
}

// The mark at the head.
fn read_mark(bytes: &[u8]) -> Result<Found, FaultKind>
    ensures spells { SpellsAlone (t.mark_token marks bytes.now) result }
    ensures used { IfOk result (λ f. (0 < f.used) × (f.used ≤ length bytes.now)) }
{
    let Some((mark, used)) = mark_at(bytes) else {
        return Err(FaultKind::BadToken);
    };
    Ok(Found {
        kind: TokenKind::Mark(mark),
        used,
    })
}

// The number at the head.
fn read_number_token(bytes: &[u8]) -> Result<Found, FaultKind>
    ensures spells { SpellsAlone (t.number_token (number_at bytes.now)) result }
    ensures used { IfOk result (λ f. (0 < f.used) × (f.used ≤ length bytes.now)) }
{
    let number = read_number(bytes)?;
    Ok(Found {
        kind: TokenKind::Number(number.literal),
        used: number.used,
    })
}

// The string after its first quote.
fn read_string_token(alloc: Global, bytes: &[u8]) -> Result<Found, Wrong>
    ensures spells { Spells (t.string_token (string_at bytes.now)) result }
    ensures used { IfOk result (λ f. (0 < f.used) × (f.used ≤ length bytes.now + 1)) }
{
    match read_string(alloc, bytes) {
        Ok(quoted) => Ok(Found {
            kind: TokenKind::Str(quoted.text),
            used: quoted.used + 1,
        }),
        Err(wrong) => Err(wrong),
    }
}

/// The token at the head, by its first byte.
pub fn read_token(alloc: Global, first: u8, bytes: &[u8]) -> Result<Found, Wrong>
    requires head { (rest : List ℕ) × (bytes.now ≡ first ∷ rest) }
    ensures spells { Spells (t.token_at bytes.now) result }
    ensures used { IfOk result (λ f. (0 < f.used) × (f.used ≤ length bytes.now)) }
{
    if begins_name(first) {
        return read_name(alloc, bytes);
    }
    if is_digit(first) || first == b'\'' {
        return Ok(read_number_token(bytes)?);
    }
    if first == b'$' {
        return Ok(read_system(after(bytes, 1))?);
    }
    if first == b'\\' {
        return read_escaped(alloc, after(bytes, 1));
    }
    if first == b'"' {
        return read_string_token(alloc, after(bytes, 1));
    }
    match read_mark(bytes) {
        Ok(found) => Ok(found),
        Err(kind) => Err(Wrong::Bad(kind)),
    }
}
