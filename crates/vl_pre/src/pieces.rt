//! Pieces of text: what they begin with, and how long they are.

ghost use Rattle.std.specs.Prelude.{◌≡◌, ◌+◌, ◌≤◌, ◌==◌, ◌&&◌, ◌||◌, ◌∷◌, [], not, false, length, drop, MatchOption};
ghost use Rattle.std.specs.List.{prefix_len};
ghost use Rattle.vl_pre.specs.Bytes as b;
ghost use Rattle.vl_pre.specs.Pieces as p;
ghost use Rattle.vl_pre.specs.Directives as d;
ghost use Rattle.vl_pre.specs.Calls.Views.{head_of};

use crate::bytes::{at_line_end, is_white, next};

/// What a piece begins with.
#[derive(Clone, Copy, Debug)]
pub enum First {
    LineComment,
    BlockComment,
    Quote,
    Backslash,
    Tick,
    Plain,
}

// The bytes after the first.
fn tail(bytes: &[u8]) -> &[u8]
    ensures { result.now ≡ drop 1 bytes.now }
{
    match next(bytes) {
        Some((_, rest)) => rest,
        None => bytes,
    }
}

/// A backslash directly before a line's end comes.
pub fn at_continued(bytes: &[u8]) -> bool
    ensures { result ≡ p.at_continued bytes.now }
{
    match next(bytes) {
        Some((first, after)) => first == b'\\' && at_line_end(after),
        None => false,
    }
}

/// A line stops here: at its end, and where backslashes continue it also at those.
pub fn stops_line(bytes: &[u8], continues: bool) -> bool
    ensures { result ≡ p.stops_line continues bytes.now }
{
    at_line_end(bytes) || continues && at_continued(bytes)
}

/// What the piece at the head begins with.
pub fn first_of(bytes: &[u8]) -> First
    ensures { head_of result ≡ p.first bytes.now }
{
    if bytes.starts_with(b"//") {
        First::LineComment
    } else if bytes.starts_with(b"/*") {
        First::BlockComment
    } else if bytes.starts_with(b"\"") {
        First::Quote
    } else if bytes.starts_with(b"\\") {
        First::Backslash
    } else if bytes.starts_with(b"`") {
        First::Tick
    } else {
        First::Plain
    }
}

// A quote that no backslash escapes.
fn ends_string(byte: u8, escaped: bool) -> bool
    ensures { result ≡ (byte == 34 && not escaped) }
{
    byte == b'"' && !escaped
}

// A backslash that no other escapes.
fn escapes(byte: u8, escaped: bool) -> bool
    ensures { result ≡ (byte == 92 && not escaped) }
{
    byte == b'\\' && !escaped
}

// How many bytes a string has after its first quote.
fn string_length(bytes: &[u8], continues: bool) -> usize
    ensures count { result ≡ p.string_length continues false bytes.now }
    ensures within { result ≤ length bytes.now }
{
    let mut rest = bytes;
    let mut escaped = false;
    let mut count: usize = 0;
    while let Some((byte, after)) = next(rest) {
        if stops_line(rest, continues) {
            return count;
        }
        count += 1;
        if ends_string(byte, escaped) {
            return count;
        }
        escaped = escapes(byte, escaped);
        rest = after;
    }
    count
}

// White space, or a place where the line stops.
fn ends_escaped(byte: u8, bytes: &[u8], continues: bool) -> bool
    ensures { result ≡ (b.is_white byte || p.stops_line continues bytes.now) }
{
    is_white(byte) || stops_line(bytes, continues)
}

// How many bytes an escaped name has after its backslash.
fn escaped_length(bytes: &[u8], continues: bool) -> usize
    ensures count { result ≡ p.escaped_length continues bytes.now }
    ensures within { result ≤ length bytes.now }
{
    let mut rest = bytes;
    let mut count: usize = 0;
    while let Some((byte, after)) = next(rest) {
        if ends_escaped(byte, rest, continues) {
            return count;
        }
        count += 1;
        rest = after;
    }
    count
}

/// How many bytes the piece at the head has that is no comment.
pub fn kept_length(bytes: &[u8], first: First, continues: bool) -> usize
    ensures { result ≡ p.kept_length continues (head_of first) bytes.now }
{
    match first {
        First::Quote => string_length(tail(bytes), continues) + 1,
        First::Backslash => escaped_length(tail(bytes), continues) + 1,
        _ => 1,
    }
}

fn count_white(bytes: &[u8]) -> usize
    ensures count { result ≡ prefix_len b.is_white bytes.now }
    ensures within { result ≤ length bytes.now }
{
    bytes.iter().take_while(|byte| is_white(**byte)).count()
}

/// The bytes without the white space at their head.
pub fn after_blanks(bytes: &[u8]) -> &[u8]
    ensures { result.now ≡ d.without_blanks bytes.now }
{
    bytes.split_at(count_white(bytes)).1
}
