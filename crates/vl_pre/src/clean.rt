//! Clean text, as its bytes and their lines.

ghost use Rattle.std.specs.Prelude.{◌≡◌, ◌<◌, ◌≤◌, ◌∷◌, [], false, length, slice_get, option_map, Some};
ghost use Rattle.vl_pre.specs.Bytes as b;
ghost use Rattle.vl_pre.specs.Pieces as p;
ghost use Rattle.vl_pre.specs.Calls.Reading.{Writes, piece_at};
ghost use Rattle.vl_pre.specs.Calls.Views.{head_of};

use crate::bytes::is_allowed;
use crate::cursor::{Cursor, skip_block, skip_line};
use crate::fault::in_text;
use crate::pieces::{First, kept_length};
use dt_core::limits::MAX_CLEAN;
use std::alloc::Global;
use std::marker::Model;
use vl_tree::fault::{FaultKind, StaticFault};

/// Bytes without comments and directives, each with the line of the text on which it stood, from 1. A byte of a macro's body has the
/// line of the use. A contract sees the list of these.
#[derive(Debug, Drop)]
pub struct Clean {
    bytes: Vec<u8>,
    lines: Vec<u32>,
}

impl Model for Clean {
    ghost use Rattle.vl_pre.specs.Bytes.{Text, joined, AreClean};

    ghost Value = { Text };

    ghost view = { λ c. joined c.bytes.items c.lines.items };

    ghost invariant = { λ c. AreClean c.bytes.items c.lines.items };
}

impl Clean {
    /// How many bytes it has, at most 16,777,216.
    pub fn len(&self) -> u32
        ensures length { result ≡ length self.now }
        ensures most { result ≤ b.most_clean }
    {
        self.bytes.len() as u32
    }

    /// Byte `k`, from 0; none where the text has no such.
    pub fn byte(&self, k: u32) -> Option<u8>
        ensures { result ≡ option_map (λ c. c.byte) (slice_get self.now k) }
    {
        at(self.bytes.as_slice(), k as usize)
    }

    /// The line of byte `k`, from 1.
    pub fn line(&self, k: u32) -> u32
        requires { k < length self.now }
        ensures { option_map (λ c. c.line) (slice_get self.now k) ≡ Some result }
    {
        self.lines[k as usize]
    }

    /// All bytes.
    pub fn bytes(&self) -> &[u8]
        ensures { result.now ≡ b.bytes self.now }
    {
        self.bytes.as_slice()
    }

    /// The line of each byte.
    pub fn lines(&self) -> &[u32]
        ensures { result.now ≡ b.lines self.now }
    {
        self.lines.as_slice()
    }

    /// No bytes.
    pub(crate) fn new(alloc: Global) -> Clean
        ensures { result ≡ [] }
    {
        Clean {
            bytes: Vec::new(alloc),
            lines: Vec::new(alloc),
        }
    }

    /// Appends a byte of this line, unless there are as many as there may be.
    pub(crate) fn push(&mut self, byte: u8, line: u32) -> Result<(), StaticFault>
        ensures { (rest : b.Text) → Writes self.old self.new rest (p.gives (b.at_line line byte ∷ []) rest) result }
    {
        if self.bytes.len() >= MAX_CLEAN as usize {
            return Err(in_text(FaultKind::TooLong, line));
        }
        if self.bytes.push(byte).is_err() {
            return Err(StaticFault::Memory);
        }
        if self.lines.push(line).is_err() {
            self.bytes.pop();
            return Err(StaticFault::Memory);
        }
        Ok(())
    }
}

/// Appends the next `n` bytes as they stand.
pub fn keep(out: &mut Clean, at: &mut Cursor, n: usize) -> Result<(), StaticFault>
    requires { length out.old ≤ b.most_clean }
    ensures { Writes out.old out.new at.new (p.kept n at.old) result }
{
    let mut left = n;
    while left > 0 {
        let Some((byte, line)) = at.next() else {
            return Ok(());
        };
        if !is_allowed(byte) {
            return Err(in_text(FaultKind::BadByte, line));
        }
        out.push(byte, line)?;
        left -= 1;
    }
    Ok(())
}

// The element at a place, if there is one.
fn at(bytes: &[u8], k: usize) -> Option<u8>
    ensures { result ≡ slice_get bytes.now k }
{
    bytes.get(k).copied()
}

/// Appends what the piece at the head of a text gives.
pub fn write_piece(out: &mut Clean, at: &mut Cursor, first: First) -> Result<(), StaticFault>
    requires some { 0 < length at.old }
    requires room { length out.old ≤ b.most_clean }
    ensures { Writes out.old out.new at.new (piece_at false (head_of first) at.old) result }
{
    match first {
        First::LineComment => {
            let Some((_, line)) = at.next() else {
                return Ok(());
            };
            skip_line(at, false);
            out.push(b' ', line)
        }
        First::BlockComment => {
            let line = skip_block(at)?;
            out.push(b' ', line)
        }
        _ => {
            let length = kept_length(at.bytes(), first, false);
            keep(out, at, length)
        }
    }
}
