//! What an `always` waits for.

ghost use Rattle.std.specs.Prelude.{◌+◌, ◌≤◌, ◌<◌, IfOk, IfSome, length};
ghost use Rattle.vl_declaration.specs.Readers.{ReadsEdge, ReadsSensed, ReadsSensedList, FindsSeparator};
ghost use Rattle.vl_declaration.specs.Readers.{ReadsEvent, ReadsEnclosedEvent};

use dt_core::limits::MAX_DEPTH;
use sqlite_items::Items;
use std::alloc::Global;
use vl_expr::read_expr;
use vl_read::cursor::Cursor;
use vl_read::fault::Fault;
use vl_tree::item::{Edge, Event, Sensed};
use vl_tree::token::{Key, Mark};

// The word of an edge, if it is there, at this depth (IEEE 1364-2005, A.6.5).
fn read_edge<'a>(at: Cursor<'a>, depth: u32) -> Result<(Edge, Cursor<'a>), Fault>
    requires low { depth ≤ MAX_DEPTH + 1 }
    ensures reads { ReadsEdge depth at.entry result }
    ensures shorter { IfOk result (λ x. length x.1 ≤ length at.entry) }
{
    if let Some((place, rest)) = at.find_key(Key::Posedge) {
        if depth > MAX_DEPTH {
            return Err(Fault::Deep(at.left()));
        }
        return Ok((Edge::Positive(place), rest));
    }
    if let Some((place, after)) = at.find_key(Key::Negedge) {
        if depth > MAX_DEPTH {
            return Err(Fault::Deep(at.left()));
        }
        return Ok((Edge::Negative(place), after));
    }
    Ok((Edge::No, at))
}

// An edge of a signal.
fn read_sensed<'a>(alloc: Global, at: Cursor<'a>, depth: u32) -> Result<(Sensed, Cursor<'a>), Fault>
    requires low { depth ≤ MAX_DEPTH + 1 }
    ensures reads { ReadsSensed depth at.entry result }
    ensures shorter { IfOk result (λ x. length x.1 < length at.entry) }
    ensures shallow { IfOk result (λ x. depth ≤ MAX_DEPTH) }
{
    let (edge, after) = read_edge(at, depth)?;
    let (signal, rest) = read_expr(alloc, after, depth)?;
    Ok((Sensed { edge, signal }, rest))
}

// The tokens after `or` or a comma, if one comes.
fn find_separator<'a>(at: &Cursor<'a>) -> Option<Cursor<'a>>
    ensures reads { FindsSeparator at.now result }
    ensures shorter { IfSome result (λ rest. length rest < length at.now) }
{
    match at.find_key(Key::Or) {
        Some((_, rest)) => Some(rest),
        None => {
            match at.find_mark(Mark::Comma) {
                Some((_, rest)) => Some(rest),
                None => None,
            }
        }
    }
}

// Edges with `or` or commas between them, one at least.
fn read_sensed_list<'a>(
    alloc: Global,
    at: Cursor<'a>,
    depth: u32,
) -> Result<(Items<Sensed>, Cursor<'a>), Fault>
    requires low { depth ≤ MAX_DEPTH + 1 }
    ensures reads { ReadsSensedList depth at.entry result }
    ensures shorter { IfOk result (λ x. length x.1 < length at.entry) }
{
    let mut all = Items::new(alloc);
    let (first, after) = read_sensed(alloc, at, depth)?;
    all.push(first)?;
    let mut rest = after;
    loop {
        match find_separator(&rest) {
            None => return Ok((all, rest)),
            Some(inner) => {
                let (sensed, after) = read_sensed(alloc, inner, depth)?;
                all.push(sensed)?;
                rest = after;
            }
        }
    }
}

// What stands in the parentheses of an event, from after `(` on.
fn read_enclosed_event<'a>(
    alloc: Global,
    at: Cursor<'a>,
    depth: u32,
) -> Result<(Event, Cursor<'a>), Fault>
    requires low { depth ≤ MAX_DEPTH }
    ensures reads { ReadsEnclosedEvent depth at.entry result }
    ensures shorter { IfOk result (λ x. length x.1 < length at.entry) }
{
    match at.find_mark(Mark::Star) {
        Some((_, inner)) => {
            if depth == MAX_DEPTH {
                return Err(Fault::Deep(at.left()));
            }
            let rest = inner.pass_mark(Mark::CloseParen)?;
            Ok((Event::AnyReadList, rest))
        }
        None => {
            let (sensed, after) = read_sensed_list(alloc, at, depth + 1)?;
            let rest = after.pass_mark(Mark::CloseParen)?;
            Ok((Event::Sensed(sensed), rest))
        }
    }
}

/// What an `always` waits for, from `@` on (A.6.5).
pub fn read_event<'a>(
    alloc: Global,
    at: Cursor<'a>,
    depth: u32,
) -> Result<(Event, Cursor<'a>), Fault>
    requires low { depth ≤ MAX_DEPTH }
    ensures reads { ReadsEvent depth at.entry result }
    ensures shorter { IfOk result (λ x. length x.1 < length at.entry) }
{
    let awaited = at.pass_mark(Mark::At)?;
    match awaited.find_mark(Mark::Star) {
        Some((_, rest)) => Ok((Event::AnyRead, rest)),
        None => {
            let inner = awaited.pass_mark(Mark::OpenParen)?;
            read_enclosed_event(alloc, inner, depth)
        }
    }
}
