//! The use of macros.

ghost use Rattle.std.specs.Prelude.{◌≡◌, ◌≤◌, ◌<◌, length};
ghost use Rattle.vl_pre.specs.Bytes as b;
ghost use Rattle.vl_pre.specs.CleanText as t;
ghost use Rattle.vl_pre.specs.Calls.Reading.{Gives, KnowsBlanks, Notes, Writes, body_piece_at, body_use_at, is_noted};
ghost use Rattle.vl_pre.specs.Calls.Views.{macros_of};

use crate::clean::{Clean, write_piece};
use crate::cursor::{Cursor, name_at, skip};
use crate::fault::in_text;
use crate::names::{Ticked, after_tick};
use crate::pieces::{First, first_of};
use dt_core::text::Text;
use indexmap::IndexMap;
use std::alloc::Global;
use vl_tree::fault::{FaultKind, StaticFault};

/// The body of each name that is defined.
pub type Macros = IndexMap<Text, Text>;

/// Names whose use is known to give nothing on the line of the outermost use, each with the least depth at which it does. Without them
/// uses that give nothing could take time exponential in the depth.
pub type Blanks = IndexMap<Text, u32>;

// Whether the use of a name is known to give nothing at this depth.
fn is_blank(blanks: &Blanks, name: &Text, depth: u32) -> bool
    ensures { result ≡ is_noted blanks.now name.now depth }
{
    match blanks.get(name) {
        Some(least) => *least <= depth,
        None => false,
    }
}

// Notes that the use of a name gives nothing from this depth on, where it does.
fn note(blanks: &mut Blanks, name: Text, depth: u32, gives_nothing: bool) -> Result<(), StaticFault>
    ensures { Notes blanks.old blanks.new name depth gives_nothing result }
{
    if !gives_nothing {
        return Ok(());
    }
    match blanks.insert(name, depth) {
        Ok(_) => Ok(()),
        Err(_) => Err(StaticFault::Memory),
    }
}

/// Appends what the use of a macro on this line gives, where so many expansions may stand in one another.
#[cycle(expand)]
pub fn expand(
    alloc: Global,
    macros: &Macros,
    blanks: &mut Blanks,
    name: &[u8],
    line: u32,
    depth: u32,
    out: &mut Clean,
) -> Result<(), StaticFault>
    requires room { length out.old ≤ b.most_clean }
    requires known { KnowsBlanks (macros_of macros.now) line blanks.old }
    ensures known { KnowsBlanks (macros_of macros.now) line blanks.new }
    ensures gives { Gives out.old out.new (t.use_of depth (macros_of macros.now) line name.now) result }
{
    let Ok(name) = Text::copied(alloc, name) else {
        return Err(StaticFault::Memory);
    };
    let Some(body) = macros.get(&name) else {
        return Err(in_text(FaultKind::UnknownMacro, line));
    };
    if depth == 0 {
        return Err(in_text(FaultKind::MacroDepth, line));
    }
    if is_blank(blanks, &name, depth) {
        return Ok(());
    }
    let before = out.len();
    write_body(alloc, macros, blanks, body.bytes(), line, depth - 1, out)?;
    let gives_nothing = out.len() == before;
    note(blanks, name, depth, gives_nothing)
}

// Appends what a body gives on this line.
#[cycle(expand)]
fn write_body(
    alloc: Global,
    macros: &Macros,
    blanks: &mut Blanks,
    body: &[u8],
    line: u32,
    depth: u32,
    out: &mut Clean,
) -> Result<(), StaticFault>
    requires room { length out.old ≤ b.most_clean }
    requires known { KnowsBlanks (macros_of macros.now) line blanks.old }
    ensures known { KnowsBlanks (macros_of macros.now) line blanks.new }
    ensures gives { Gives out.old out.new
        (t.whole_body (t.use_of depth (macros_of macros.now) line) line body.now) result }
{
    let mut at = Cursor::over_body(body, line);
    while !at.bytes().is_empty() {
        write_next(alloc, macros, blanks, line, depth, &mut at, out)?;
    }
    Ok(())
}

// Appends what the piece at the head of a body gives on this line.
#[cycle(expand)]
fn write_next(
    alloc: Global,
    macros: &Macros,
    blanks: &mut Blanks,
    line: u32,
    depth: u32,
    at: &mut Cursor,
    out: &mut Clean,
) -> Result<(), StaticFault>
    requires some { 0 < length at.old }
    requires room { length out.old ≤ b.most_clean }
    requires known { KnowsBlanks (macros_of macros.now) line blanks.old }
    ensures known { KnowsBlanks (macros_of macros.now) line blanks.new }
    ensures writes { Writes out.old out.new at.new
        (body_piece_at (t.use_of depth (macros_of macros.now) line) line at.old) result }
{
    let first = first_of(at.bytes());
    match first {
        First::Tick => write_use(alloc, macros, blanks, line, depth, at, out),
        _ => write_piece(out, at, first),
    }
}

// Appends what the use of a macro, whose backtick stands at the head of a body, gives on this line.
#[cycle(expand)]
fn write_use(
    alloc: Global,
    macros: &Macros,
    blanks: &mut Blanks,
    line: u32,
    depth: u32,
    at: &mut Cursor,
    out: &mut Clean,
) -> Result<(), StaticFault>
    requires room { length out.old ≤ b.most_clean }
    requires known { KnowsBlanks (macros_of macros.now) line blanks.old }
    ensures known { KnowsBlanks (macros_of macros.now) line blanks.new }
    ensures writes { Writes out.old out.new at.new
        (body_use_at (t.use_of depth (macros_of macros.now) line) line at.old) result }
{
    skip(at, 1);
    let name = name_at(at);
    let Ticked::Macro = after_tick(name) else {
        return Err(in_text(FaultKind::BadDirective, line));
    };
    expand(alloc, macros, blanks, name, line, depth, out)?;
    skip(at, name.len());
    Ok(())
}
