//! The rest of a line: the body of a definition, and what is passed over.

ghost use Rattle.std.specs.Prelude.{◌≡◌, ◌<◌, ◌∷◌, [], length, if◌then◌else◌};
ghost use Rattle.vl_pre.specs.Bytes as b;
ghost use Rattle.vl_pre.specs.Pieces as p;
ghost use Rattle.vl_pre.specs.Calls.Reading as r;
ghost use Rattle.vl_pre.specs.Calls.Reading.{Keeps, ReadsPart};
ghost use Rattle.vl_pre.specs.Calls.Views as v;

use crate::bytes::{ends_line, is_allowed};
use crate::cursor::{Cursor, skip, skip_block, skip_line};
use crate::fault::in_text;
use crate::pieces::{First, at_continued, first_of, kept_length};
use dt_core::text::Text;
use std::alloc::Global;
use vl_tree::fault::{FaultKind, StaticFault};

/// What stands next in a line: a backslash that continues it, or a piece.
#[derive(Clone, Copy, Debug)]
pub enum InLine {
    Continued,
    Inside(First),
}

/// The rest of the line, up to its end, where comments are replaced. Where backslashes continue the line, each with the line's end after
/// it is a blank.
pub fn rest_of_line(alloc: Global, at: &mut Cursor, continues: bool) -> Result<Text, StaticFault>
    ensures { ReadsPart at.new (p.rest_of_line (length at.old) continues at.old) result }
{
    let mut body = Vec::new(alloc);
    while !ends_line(at.bytes()) {
        read_next(&mut body, at, continues)?;
    }
    Ok(Text::of_bytes(body))
}

fn in_line(bytes: &[u8], continues: bool) -> InLine
    ensures { v.in_line_of result ≡ p.in_line continues bytes.now }
{
    if continues && at_continued(bytes) {
        InLine::Continued
    } else {
        InLine::Inside(first_of(bytes))
    }
}

// Appends what the piece at the head of the line gives.
fn read_next(body: &mut Vec<u8>, at: &mut Cursor, continues: bool) -> Result<(), StaticFault>
    requires { 0 < length at.old }
    ensures { Keeps body.old.items body.new.items at.new (r.next_in_line continues at.old) result }
{
    match in_line(at.bytes(), continues) {
        InLine::Continued => read_continued(body, at, continues),
        InLine::Inside(first) => read_piece(body, at, first, continues),
    }
}

// Appends the blank of a backslash that continues the line.
fn read_continued(body: &mut Vec<u8>, at: &mut Cursor, continues: bool) -> Result<(), StaticFault>
    requires { 0 < length at.old }
    ensures { Keeps body.old.items body.new.items at.new (r.piece_in_line p.continued continues at.old) result }
{
    let Some((_, line)) = at.next() else {
        return Ok(());
    };
    let length = line_end_length(at.bytes());
    skip(at, length);
    push(body, b' ', line)
}

// How many bytes the line's end has.
fn line_end_length(bytes: &[u8]) -> usize
    ensures { result ≡ (if b.begins (10 ∷ []) bytes.now then 1 else 2) }
{
    if bytes.starts_with(b"\n") { 1 } else { 2 }
}

// Appends what a piece inside the line gives.
fn read_piece(
    body: &mut Vec<u8>,
    at: &mut Cursor,
    first: First,
    continues: bool,
) -> Result<(), StaticFault>
    requires { 0 < length at.old }
    ensures { Keeps body.old.items body.new.items at.new
        (r.piece_in_line (p.inside (v.head_of first)) continues at.old) result }
{
    match first {
        First::LineComment => {
            skip(at, 1);
            skip_line(at, continues);
            Ok(())
        }
        First::BlockComment => {
            let line = skip_block(at)?;
            push(body, b' ', line)
        }
        _ => {
            let length = kept_length(at.bytes(), first, continues);
            keep(body, at, length)
        }
    }
}

// Appends a byte.
fn push(body: &mut Vec<u8>, byte: u8, line: u32) -> Result<(), StaticFault>
    ensures { (rest : b.Text) → Keeps body.old.items body.new.items rest
        (p.gives (b.at_line line byte ∷ []) rest) result }
{
    match body.push(byte) {
        Ok(()) => Ok(()),
        Err(_) => Err(StaticFault::Memory),
    }
}

// Appends the next `n` bytes as they stand.
fn keep(body: &mut Vec<u8>, at: &mut Cursor, n: usize) -> Result<(), StaticFault>
    ensures { Keeps body.old.items body.new.items at.new (p.kept n at.old) result }
{
    let mut left = n;
    while left > 0 {
        let Some((byte, line)) = at.next() else {
            return Ok(());
        };
        if !is_allowed(byte) {
            return Err(in_text(FaultKind::BadByte, line));
        }
        push(body, byte, line)?;
        left -= 1;
    }
    Ok(())
}
