//! Attributes: how many bytes are passed over.

ghost use Rattle.std.specs.Prelude.{◌≡◌, ◌+◌, ◌≤◌, ◌<◌, ◌∷◌, ◌^◌, length, IfSome, IsTrue};
ghost use Rattle.vl_lex.specs.Attributes as a;
ghost use Rattle.vl_lex.specs.Calls.Reading as r;

use vl_pre::bytes::{after, is_white, next};

/// Where a byte of an attribute stands: outside strings, in a string, or after a backslash in one.
#[derive(Clone, Copy, Debug, PartialEq, Eq)]
pub enum Within {
    Outside,
    Quoted,
    Escaping,
}

fn after_white(bytes: &[u8]) -> &[u8]
    ensures { result.now ≡ a.after_white bytes.now }
{
    let mut rest = bytes;
    while let Some((first, after)) = next(rest) {
        if !is_white(first) {
            return rest;
        }
        rest = after;
    }
    rest
}

/// Whether an attribute begins here: `(*`, not followed by `)` after white space.
pub fn opens_attribute(bytes: &[u8]) -> bool
    ensures { result ≡ a.opens_attribute bytes.now }
{
    bytes.starts_with(b"(*") && !after_white(after(bytes, 2)).starts_with(b")")
}

// Where the byte after this one stands.
fn after_byte(at: Within, byte: u8) -> Within
    ensures { result ≡ r.after_byte at byte }
{
    match at {
        Within::Outside => {
            if byte == b'"' {
                Within::Quoted
            } else {
                Within::Outside
            }
        }
        Within::Quoted => {
            if byte == b'"' || byte == b'\n' {
                Within::Outside
            } else if byte == b'\\' {
                Within::Escaping
            } else {
                Within::Quoted
            }
        }
        Within::Escaping => {
            if byte == b'\n' {
                Within::Outside
            } else {
                Within::Quoted
            }
        }
    }
}

// Whether the attribute ends here.
fn ends_attribute(at: Within, bytes: &[u8]) -> bool
    ensures { result ≡ r.ends_attribute at bytes.now }
{
    match at {
        Within::Outside => bytes.starts_with(b"*)"),
        Within::Quoted => false,
        Within::Escaping => false,
    }
}

/// How many bytes lead to the next `*)` outside strings, and it with them.
pub fn close_length(bytes: &[u8]) -> Option<usize>
    ensures length { result ≡ a.close_from bytes.now }
    ensures within { IfSome result (λ n. n ≤ length bytes.now) }
{
    let mut at = Within::Outside;
    let mut rest = bytes;
    while let Some((first, after)) = next(rest) {
        if ends_attribute(at, rest) {
            return Some(bytes.len() - rest.len() + 2);
        }
        at = after_byte(at, first);
        rest = after;
    }
    None
}
