//! Names after backticks, and the NAME of a directive.

ghost use Rattle.std.specs.Prelude.{◌≡◌, ◌<◌, length, codes, option_map};
ghost use Rattle.vl_pre.specs.Bytes as b;
ghost use Rattle.vl_pre.specs.Directives as d;
ghost use Rattle.vl_pre.specs.Calls.Reading.{Finds, Moves};
ghost use Rattle.vl_pre.specs.Tables.{entry};
ghost use Rattle.vl_pre.specs.Calls.Views as v;

use crate::bytes::{at_line_end, is_white, next};
use crate::cursor::{Cursor, name_at, skip, skip_block};
use crate::fault::in_text;
use crate::tables::find;
use vl_tree::fault::{FaultKind, StaticFault};

/// A directive.
#[derive(Clone, Copy, Debug)]
pub enum Directive {
    Define,
    Undef,
    Ifdef,
    Ifndef,
    Elsif,
    Else,
    Endif,
    /// Passed over with the rest of its line.
    Passed,
    Include,
}

/// What stands after a backtick.
#[derive(Clone, Copy, Debug)]
pub enum Ticked {
    NoName,
    Named(Directive),
    Macro,
}

static DIRECTIVES: [(&[u8], Directive); 13] = [
    (b"define", Directive::Define),
    (b"undef", Directive::Undef),
    (b"ifdef", Directive::Ifdef),
    (b"ifndef", Directive::Ifndef),
    (b"elsif", Directive::Elsif),
    (b"else", Directive::Else),
    (b"endif", Directive::Endif),
    (b"timescale", Directive::Passed),
    (b"default_nettype", Directive::Passed),
    (b"resetall", Directive::Passed),
    (b"celldefine", Directive::Passed),
    (b"endcelldefine", Directive::Passed),
    (b"include", Directive::Include),
];

// The directive of this name.
fn directive_of(name: &[u8]) -> Option<Directive>
    ensures { option_map v.directive_of result ≡ entry d.directives name.now }
{
    find(DIRECTIVES.as_slice(), name)
}

/// What the name after a backtick makes it.
pub fn after_tick(name: &[u8]) -> Ticked
    ensures { v.ticked_of result ≡ d.ticked name.now }
{
    match next(name) {
        None => Ticked::NoName,
        Some(_) => tick_by(directive_of(name)),
    }
}

fn tick_by(found: Option<Directive>) -> Ticked
    ensures { v.ticked_of result ≡ d.named (option_map v.directive_of found) }
{
    match found {
        Some(directive) => Ticked::Named(directive),
        None => Ticked::Macro,
    }
}

/// Whether it is recognised in skipped text too.
pub fn is_conditional(directive: Directive) -> bool
    ensures { result ≡ d.is_conditional (v.directive_of directive) }
{
    match directive {
        Directive::Ifdef
        | Directive::Ifndef
        | Directive::Elsif
        | Directive::Else
        | Directive::Endif => true,
        _ => false,
    }
}

// White space, and no line's end, comes.
fn at_blank(bytes: &[u8]) -> bool
    ensures { result ≡ d.at_blank bytes.now }
{
    match next(bytes) {
        Some((first, _)) => is_white(first) && !at_line_end(bytes),
        None => false,
    }
}

fn at_comment(bytes: &[u8]) -> bool
    ensures { result ≡ b.begins (codes "/*") bytes.now }
{
    bytes.starts_with(b"/*")
}

fn at_gap(bytes: &[u8]) -> bool
    ensures { result ≡ d.at_gap bytes.now }
{
    at_comment(bytes) || at_blank(bytes)
}

// Goes on after the comment or the blank at the head.
fn skip_one(at: &mut Cursor) -> Result<(), StaticFault>
    ensures { Moves at.new (d.after_one (b.begins (codes "/*") (b.bytes at.old)) at.old) result }
{
    if at_comment(at.bytes()) {
        skip_block(at)?;
    } else {
        skip(at, 1);
    }
    Ok(())
}

// Goes on after blanks and comments on the line.
fn skip_gap(at: &mut Cursor) -> Result<(), StaticFault>
    ensures { Moves at.new (d.after_gap (length at.old) at.old) result }
{
    while at_gap(at.bytes()) {
        skip_one(at)?;
    }
    Ok(())
}

/// The NAME of the directive whose backtick stands on this line.
pub fn name_of<'a>(at: &mut Cursor<'a>, line: u32) -> Result<&'a [u8], StaticFault>
    ensures { Finds at.new (d.name_of line at.old) result }
{
    skip_gap(at)?;
    let name = name_at(at);
    match after_tick(name) {
        Ticked::Macro => {
            skip(at, name.len());
            Ok(name)
        }
        _ => Err(in_text(FaultKind::BadDirective, line)),
    }
}
