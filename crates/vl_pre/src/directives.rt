//! What directives do.

ghost use Rattle.std.specs.Prelude.{ℕ, ◌≡◌, ◌++◌, ◌∷◌, [], reverse, MatchOption};
ghost use Rattle.vl_pre.specs.Directives as d;
ghost use Rattle.vl_pre.specs.Calls.Reading.{Copies, Goes};
ghost use Rattle.vl_pre.specs.Calls.Views.{directive_of, context_of};

use crate::bytes::is_white;
use crate::context::Context;
use crate::cursor::Cursor;
use crate::fault::in_text;
use crate::lines::rest_of_line;
use crate::names::{Directive, name_of};
use crate::pieces::after_blanks;
use dt_core::text::Text;
use std::alloc::Global;
use vl_tree::fault::{FaultKind, StaticFault};

/// Does what the directive on this line does, and goes on after it.
pub fn direct(
    alloc: Global,
    directive: Directive,
    line: u32,
    at: &mut Cursor,
    context: &mut Context,
) -> Result<(), StaticFault>
    ensures { Goes at.new context.new
        (d.directive_step (directive_of directive) line (context_of context.old) at.old) result }
{
    match directive {
        Directive::Define => define(alloc, line, at, context),
        Directive::Undef => undefine(alloc, line, at, context),
        Directive::Ifdef => open(alloc, true, line, at, context),
        Directive::Ifndef => open(alloc, false, line, at, context),
        Directive::Elsif => turn(alloc, line, at, context),
        Directive::Else => context.turn(line, true, true),
        Directive::Endif => context.close(line),
        Directive::Passed => pass(alloc, at),
        Directive::Include => Err(in_text(FaultKind::BadDirective, line)),
    }
}

// A text of its own with these bytes.
fn copied(alloc: Global, bytes: &[u8]) -> Result<Text, StaticFault>
    ensures { Copies bytes.now result }
{
    match Text::copied(alloc, bytes) {
        Ok(text) => Ok(text),
        Err(_) => Err(StaticFault::Memory),
    }
}

fn define(
    alloc: Global,
    line: u32,
    at: &mut Cursor,
    context: &mut Context,
) -> Result<(), StaticFault>
    ensures { Goes at.new context.new (d.directive_step d.define line (context_of context.old) at.old) result }
{
    let name = name_of(at, line)?;
    if at.bytes().starts_with(b"(") {
        return Err(in_text(FaultKind::BadDirective, line));
    }
    let name = copied(alloc, name)?;
    let rest = rest_of_line(alloc, at, true)?;
    let body = copied(alloc, trimmed(rest.bytes()))?;
    context.define(name, body)
}

fn undefine(
    alloc: Global,
    line: u32,
    at: &mut Cursor,
    context: &mut Context,
) -> Result<(), StaticFault>
    ensures { Goes at.new context.new (d.directive_step d.undef line (context_of context.old) at.old) result }
{
    let name = name_of(at, line)?;
    let name = copied(alloc, name)?;
    context.undefine(&name);
    Ok(())
}

// Opens the condition of `ifdef`, where the name is wanted, or of `ifndef`.
fn open(
    alloc: Global,
    wanted: bool,
    line: u32,
    at: &mut Cursor,
    context: &mut Context,
) -> Result<(), StaticFault>
    ensures { Goes at.new context.new (d.open_step wanted line (context_of context.old) at.old) result }
{
    let name = name_of(at, line)?;
    let name = copied(alloc, name)?;
    let holds = holds(wanted, context.is_defined(&name));
    context.open(line, holds)
}

fn holds(wanted: bool, is_there: bool) -> bool
    ensures { result ≡ d.holds wanted is_there }
{
    if wanted { is_there } else { !is_there }
}

// Goes on to the branch of an `elsif`; its NAME is looked at only where it has a condition to go on with.
fn turn(alloc: Global, line: u32, at: &mut Cursor, context: &mut Context) -> Result<(), StaticFault>
    ensures { Goes at.new context.new (d.directive_step d.elsif line (context_of context.old) at.old) result }
{
    if !context.may_turn() {
        return Err(in_text(FaultKind::Unbalanced, line));
    }
    let name = name_of(at, line)?;
    let name = copied(alloc, name)?;
    let holds = context.is_defined(&name);
    context.turn(line, holds, false)
}

// Passes over the rest of the line.
fn pass(alloc: Global, at: &mut Cursor) -> Result<(), StaticFault>
    ensures { (line : ℕ) (context : Context) → Goes at.new context
        (d.directive_step d.passed_over line (context_of context) at.old) result }
{
    rest_of_line(alloc, at, false)?;
    Ok(())
}

// The last byte and those before it.
fn last(bytes: &[u8]) -> Option<(u8, &[u8])>
    ensures { MatchOption result (bytes.now ≡ []) (λ x. bytes.now ≡ x.1.now ++ x.0 ∷ []) }
{
    match bytes.split_last() {
        Some((last, front)) => Some((*last, front)),
        None => None,
    }
}

// The bytes without the white space at their end.
fn before_blanks(bytes: &[u8]) -> &[u8]
    ensures { result.now ≡ reverse (d.without_blanks (reverse bytes.now)) }
{
    let mut rest = bytes;
    while let Some((byte, front)) = last(rest) {
        if !is_white(byte) {
            return rest;
        }
        rest = front;
    }
    rest
}

// The bytes without the white space at both ends.
fn trimmed(bytes: &[u8]) -> &[u8]
    ensures { result.now ≡ d.trimmed bytes.now }
{
    before_blanks(after_blanks(bytes))
}
