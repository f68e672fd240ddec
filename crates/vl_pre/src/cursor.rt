//! A place in a text, with its line.

ghost use Rattle.std.specs.Prelude.{◌≡◌, ◌-◌, ◌^◌, ◌<◌, ◌≤◌, ◌∷◌, [], length, drop, codes, MatchOption};
ghost use Rattle.vl_pre.specs.Bytes as b;
ghost use Rattle.vl_pre.specs.Pieces as p;
ghost use Rattle.vl_pre.specs.Calls.Reading.{Closes, Passes};

use crate::bytes::{name_length, next};
use crate::fault::in_text;
use crate::pieces::stops_line;
use std::marker::Model;
use vl_tree::fault::{FaultKind, StaticFault};

/// A place in a text from which it is read on. A contract sees the text from there on, with the line of each byte.
#[derive(Drop)]
pub struct Cursor<'a> {
    bytes: &'a [u8],
    line: u32,
    in_body: bool,
}

impl<'a> Model for Cursor<'a> {
    ghost use Rattle.vl_pre.specs.Bytes.{Text};
    ghost use Rattle.vl_pre.specs.Calls.Cursors.{text_from, LinesFit};

    ghost Value = { Text };

    ghost view = { λ c. text_from c.in_body c.line c.bytes.now };

    ghost invariant = { λ c. LinesFit c.in_body c.line c.bytes.now };
}

impl<'a> Cursor<'a> {
    /// The begin of a text, which is line 1.
    pub fn over(text: &'a [u8]) -> Cursor<'a>
        requires { length text.now < 2 ^ 32 - 1 }
        ensures { result ≡ b.placed 1 text.now }
    {
        Cursor {
            bytes: text,
            line: 1,
            in_body: false,
        }
    }

    /// The begin of a macro's body, whose bytes have the line of the use.
    pub fn over_body(body: &'a [u8], line: u32) -> Cursor<'a>
        ensures { result ≡ b.all_at line body.now }
    {
        Cursor {
            bytes: body,
            line,
            in_body: true,
        }
    }

    /// The bytes from here on.
    pub fn bytes(&self) -> &'a [u8]
        ensures { result.now ≡ b.bytes self.now }
    {
        self.bytes
    }

    /// Takes the next byte, with its line.
    pub fn next(&mut self) -> Option<(u8, u32)>
        ensures { MatchOption result ((self.old ≡ []) × (self.new ≡ []))
            (λ c. self.old ≡ b.at_line c.1 c.0 ∷ self.new) }
    {
        let line = self.line;
        let (byte, rest) = next(self.bytes)?;
        self.bytes = rest;
        if byte == b'\n' && !self.in_body {
            self.line += 1;
        }
        Some((byte, line))
    }
}

/// Passes over `n` bytes.
pub fn skip(at: &mut Cursor, n: usize)
    ensures { at.new ≡ drop n at.old }
{
    let mut left = n;
    while left > 0 {
        let Some(_) = at.next() else {
            return;
        };
        left -= 1;
    }
}

/// Goes on to where the line stops.
pub fn skip_line(at: &mut Cursor, continues: bool)
    ensures { at.new ≡ p.from_stop continues at.old }
{
    while !stops_line(at.bytes(), continues) {
        let Some(_) = at.next() else {
            return;
        };
    }
}

// `*/` comes.
fn closes(bytes: &[u8]) -> bool
    ensures { result ≡ b.begins (codes "*/") bytes.now }
{
    bytes.starts_with(b"*/")
}

// Goes on after the next `*/`, and says whether there is one.
fn skip_to_close(at: &mut Cursor) -> bool
    ensures { Closes at.old at.new result }
{
    while !closes(at.bytes()) {
        let Some(_) = at.next() else {
            return false;
        };
    }
    skip(at, 2);
    true
}

/// Goes on after the comment from `/*` to `*/`, and gives the line on which it begins.
pub fn skip_block(at: &mut Cursor) -> Result<u32, StaticFault>
    ensures { Passes at.old at.new result }
{
    let Some((_, line)) = at.next() else {
        return Ok(0);
    };
    skip(at, 1);
    if skip_to_close(at) {
        Ok(line)
    } else {
        Err(in_text(FaultKind::OpenComment, line))
    }
}

/// The name at the head, empty where none begins there.
pub fn name_at<'a>(at: &Cursor<'a>) -> &'a [u8]
    ensures { result.now ≡ b.name_at at.now }
{
    let bytes = at.bytes();
    bytes.split_at(name_length(bytes)).0
}
