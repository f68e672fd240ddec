//! The text, one step at a time.

ghost use Rattle.std.specs.Prelude.{◌≤◌, ◌<◌, true, length};
ghost use Rattle.vl_pre.specs.Bytes as b;
ghost use Rattle.vl_pre.specs.CleanText as t;
ghost use Rattle.vl_pre.specs.Directives as d;
ghost use Rattle.vl_pre.specs.Calls.Reading.{Gives, Goes, Steps, skipped_at, skipped_tick_at, step_at, tick_at};
ghost use Rattle.vl_pre.specs.Calls.Views.{context_of};

use crate::clean::{Clean, write_piece};
use crate::context::Context;
use crate::cursor::{Cursor, name_at, skip, skip_block, skip_line};
use crate::directives::direct;
use crate::fault::in_text;
use crate::macros::expand;
use crate::names::{Ticked, after_tick, is_conditional};
use crate::pieces::{First, first_of, kept_length};
use indexmap::IndexMap;
use std::alloc::Global;
use vl_tree::fault::{FaultKind, StaticFault};

/// An expansion inside this many others is a fault.
const MAX_EXPANSIONS: u32 = 16;

/// Appends what a text gives from here on.
pub fn read_all(
    alloc: Global,
    at: &mut Cursor,
    context: &mut Context,
    out: &mut Clean,
) -> Result<(), StaticFault>
    requires { length out.old ≤ b.most_clean }
    ensures { Gives out.old out.new (t.reading_from (length at.old) (context_of context.old) at.old) result }
{
    while !at.bytes().is_empty() {
        take_step(alloc, at, context, out)?;
    }
    context.finish()
}

// Takes the step at the head of a text.
fn take_step(
    alloc: Global,
    at: &mut Cursor,
    context: &mut Context,
    out: &mut Clean,
) -> Result<(), StaticFault>
    requires some { 0 < length at.old }
    requires room { length out.old ≤ b.most_clean }
    ensures { Steps out.old out.new at.new context.new
        (step_at (d.is_read (context_of context.old).conditions) (context_of context.old) at.old) result }
{
    if context.is_read() {
        read_step(alloc, at, context, out)
    } else {
        skip_step(alloc, at, context)
    }
}

// Appends what the piece at the head of a text that is read gives.
fn read_step(
    alloc: Global,
    at: &mut Cursor,
    context: &mut Context,
    out: &mut Clean,
) -> Result<(), StaticFault>
    requires some { 0 < length at.old }
    requires room { length out.old ≤ b.most_clean }
    ensures { Steps out.old out.new at.new context.new (step_at true (context_of context.old) at.old) result }
{
    let first = first_of(at.bytes());
    match first {
        First::Tick => read_tick(alloc, at, context, out),
        _ => write_piece(out, at, first),
    }
}

// Does what the backtick at the head of a text that is read begins.
fn read_tick(
    alloc: Global,
    at: &mut Cursor,
    context: &mut Context,
    out: &mut Clean,
) -> Result<(), StaticFault>
    requires room { length out.old ≤ b.most_clean }
    ensures { Steps out.old out.new at.new context.new (tick_at (context_of context.old) at.old) result }
{
    let Some((_, line)) = at.next() else {
        return Ok(());
    };
    let name = name_at(at);
    match after_tick(name) {
        Ticked::NoName => Err(in_text(FaultKind::BadDirective, line)),
        Ticked::Named(directive) => {
            skip(at, name.len());
            direct(alloc, directive, line, at, context)
        }
        Ticked::Macro => {
            skip(at, name.len());
            let mut blanks = IndexMap::new(alloc);
            expand(
                alloc,
                &context.macros,
                &mut blanks,
                name,
                line,
                MAX_EXPANSIONS,
                out,
            )
        }
    }
}

// Passes over the piece at the head of a text that is skipped.
fn skip_step(alloc: Global, at: &mut Cursor, context: &mut Context) -> Result<(), StaticFault>
    requires { 0 < length at.old }
    ensures { Goes at.new context.new (skipped_at (context_of context.old) at.old) result }
{
    let first = first_of(at.bytes());
    match first {
        First::LineComment => {
            skip(at, 1);
            skip_line(at, false);
            Ok(())
        }
        First::BlockComment => {
            skip_block(at)?;
            Ok(())
        }
        First::Quote => {
            let length = kept_length(at.bytes(), first, false);
            skip(at, length);
            Ok(())
        }
        First::Tick => skip_tick(alloc, at, context),
        _ => {
            skip(at, 1);
            Ok(())
        }
    }
}

// Does what the backtick at the head of a text that is skipped begins.
fn skip_tick(alloc: Global, at: &mut Cursor, context: &mut Context) -> Result<(), StaticFault>
    ensures { Goes at.new context.new (skipped_tick_at (context_of context.old) at.old) result }
{
    let Some((_, line)) = at.next() else {
        return Ok(());
    };
    let name = name_at(at);
    let Ticked::Named(directive) = after_tick(name) else {
        return Ok(());
    };
    if !is_conditional(directive) {
        return Ok(());
    }
    skip(at, name.len());
    direct(alloc, directive, line, at, context)
}
