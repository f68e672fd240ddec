//! Directions, and the ports and parameters of a module's header.

ghost use Rattle.std.specs.Prelude.{◌+◌, ◌≤◌, ◌<◌, IfOk, IfSome, length};
ghost use Rattle.vl_header.specs.Readers.{FindsDirection, FindsKept, ReadsDirected, ReadsPort, ReadsNamedPort, ReadsClosedPorts};
ghost use Rattle.vl_header.specs.Readers.{ReadsHeaderParameter, ReadsHeaderList, ReadsHeaderParameters};

use crate::lists::{HeaderParameters, NamedPorts, Ports};
use dt_core::limits::MAX_DEPTH;
use dt_core::place::Place;
use sqlite_items::Items;
use std::alloc::Global;
use vl_declaration::{read_key, read_shape};
use vl_expr::read_expr;
use vl_read::commas::read_commas;
use vl_read::cursor::Cursor;
use vl_read::fault::Fault;
use vl_simple::{read_name, read_valued};
use vl_tree::item::{Directed, Direction, HeaderParameter, Kept, Port};
use vl_tree::token::{Key, Mark};

/// The direction that comes first, its place, and the tokens after it.
pub fn find_direction<'a>(at: &Cursor<'a>) -> Option<(Direction, Place, Cursor<'a>)>
    ensures reads { FindsDirection at.now result }
    ensures shorter { IfSome result (λ x. length x.2 < length at.now) }
{
    match at.find_key(Key::Input) {
        Some((place, rest)) => Some((Direction::Input, place, rest)),
        None => {
            match at.find_key(Key::Output) {
                Some((place, rest)) => Some((Direction::Output, place, rest)),
                None => None,
            }
        }
    }
}

// `wire` or `reg`, if it comes first, and the tokens after it.
fn skip_kept<'a>(at: Cursor<'a>) -> (Option<Kept>, Cursor<'a>)
    ensures reads { FindsKept at.entry result }
    ensures shorter { length result.1 ≤ length at.entry }
{
    match at.find_key(Key::Wire) {
        Some((_, rest)) => (Some(Kept::Wire), rest),
        None => {
            match at.find_key(Key::Reg) {
                Some((_, rest)) => (Some(Kept::Reg), rest),
                None => (None, at),
            }
        }
    }
}

/// A declaration of a direction (IEEE 1364-2005, A.2.1.2).
pub fn read_directed<'a>(
    alloc: Global,
    at: Cursor<'a>,
    depth: u32,
) -> Result<(Directed, Cursor<'a>), Fault>
    requires low { depth ≤ MAX_DEPTH + 1 }
    ensures reads { ReadsDirected depth at.entry result }
    ensures shorter { IfOk result (λ x. length x.1 < length at.entry) }
    ensures shallow { IfOk result (λ x. depth ≤ MAX_DEPTH) }
{
    let Some((direction, place, inner)) = find_direction(&at) else {
        return Err(Fault::At(at.left()));
    };
    if depth > MAX_DEPTH {
        return Err(Fault::Deep(at.left()));
    }
    let (kept, after) = skip_kept(inner);
    let (shape, rest) = read_shape(alloc, after, depth)?;
    let directed = Directed {
        place,
        direction,
        kept,
        signed: shape.signed,
        range: shape.range,
    };
    Ok((directed, rest))
}

/// A port: a name, after a declaration of a direction if there is one (A.1.3).
pub fn read_port<'a>(alloc: Global, at: Cursor<'a>, depth: u32) -> Result<(Port, Cursor<'a>), Fault>
    requires low { depth ≤ MAX_DEPTH + 1 }
    ensures reads { ReadsPort depth at.entry result }
    ensures shorter { IfOk result (λ x. length x.1 < length at.entry) }
    ensures shallow { IfOk result (λ x. depth ≤ MAX_DEPTH) }
{
    match find_direction(&at) {
        Some(_) => {
            let (directed, after) = read_directed(alloc, at, depth)?;
            let (name, rest) = read_name(alloc, after, depth)?;
            Ok((Port::Declared(directed, name), rest))
        }
        None => {
            let (name, rest) = read_name(alloc, at, depth)?;
            Ok((Port::Named(name), rest))
        }
    }
}

/// A port that is a name alone.
pub fn read_named_port<'a>(
    alloc: Global,
    at: Cursor<'a>,
    depth: u32,
) -> Result<(Port, Cursor<'a>), Fault>
    requires low { depth ≤ MAX_DEPTH + 1 }
    ensures reads { ReadsNamedPort depth at.entry result }
    ensures shorter { IfOk result (λ x. length x.1 < length at.entry) }
    ensures shallow { IfOk result (λ x. depth ≤ MAX_DEPTH) }
{
    let (name, rest) = read_name(alloc, at, depth)?;
    Ok((Port::Named(name), rest))
}

/// The ports of a header from after `(` on, and the `)` after them (A.1.3).
pub fn read_closed_ports<'a>(
    alloc: Global,
    at: Cursor<'a>,
    depth: u32,
) -> Result<(Items<Port>, Cursor<'a>), Fault>
    requires low { depth ≤ MAX_DEPTH }
    ensures reads { ReadsClosedPorts depth at.entry result }
    ensures shorter { IfOk result (λ x. length x.1 < length at.entry) }
{
    if let Some((_, rest)) = at.find_mark(Mark::CloseParen) {
        return Ok((Items::new(alloc), rest));
    }
    match find_direction(&at) {
        Some(_) => {
            let (ports, after) = read_commas::<Ports>(alloc, at, depth + 1)?;
            let rest = after.pass_mark(Mark::CloseParen)?;
            Ok((ports, rest))
        }
        None => {
            let (ports, after) = read_commas::<NamedPorts>(alloc, at, depth + 1)?;
            let rest = after.pass_mark(Mark::CloseParen)?;
            Ok((ports, rest))
        }
    }
}

/// A parameter of a header (A.1.3).
pub fn read_header_parameter<'a>(
    alloc: Global,
    at: Cursor<'a>,
    depth: u32,
) -> Result<(HeaderParameter, Cursor<'a>), Fault>
    requires low { depth ≤ MAX_DEPTH + 1 }
    ensures reads { ReadsHeaderParameter depth at.entry result }
    ensures shorter { IfOk result (λ x. length x.1 < length at.entry) }
    ensures shallow { IfOk result (λ x. depth ≤ MAX_DEPTH) }
{
    match at.find_key(Key::Parameter) {
        Some(_) => {
            let (place, after) = read_key(&at, Key::Parameter, depth)?;
            let (shape, after) = read_shape(alloc, after, depth)?;
            let (name, after) = read_name(alloc, after, depth)?;
            let inner = after.pass_mark(Mark::Equals)?;
            let (value, rest) = read_expr(alloc, inner, depth)?;
            let tree = HeaderParameter::Declared(place, shape.signed, shape.range, name, value);
            Ok((tree, rest))
        }
        None => {
            let (valued, rest) = read_valued(alloc, at, depth)?;
            Ok((HeaderParameter::Next(valued.name, valued.value), rest))
        }
    }
}

// Parameters of a header, of which the first has the word `parameter`.
fn read_header_list<'a>(
    alloc: Global,
    at: Cursor<'a>,
    depth: u32,
) -> Result<(Items<HeaderParameter>, Cursor<'a>), Fault>
    requires low { depth ≤ MAX_DEPTH + 1 }
    ensures reads { ReadsHeaderList depth at.entry result }
    ensures shorter { IfOk result (λ x. length x.1 < length at.entry) }
{
    match at.find_key(Key::Parameter) {
        Some(_) => read_commas::<HeaderParameters>(alloc, at, depth),
        None => Err(Fault::At(at.left())),
    }
}

/// `#(..)` of a header, if it is there (A.1.3).
pub fn read_header_parameters<'a>(
    alloc: Global,
    at: Cursor<'a>,
    depth: u32,
) -> Result<(Items<HeaderParameter>, Cursor<'a>), Fault>
    requires low { depth ≤ MAX_DEPTH }
    ensures reads { ReadsHeaderParameters depth at.entry result }
    ensures shorter { IfOk result (λ x. length x.1 ≤ length at.entry) }
{
    match at.find_mark(Mark::Hash) {
        None => Ok((Items::new(alloc), at)),
        Some((_, after)) => {
            let inner = after.pass_mark(Mark::OpenParen)?;
            let (all, after) = read_header_list(alloc, inner, depth + 1)?;
            let rest = after.pass_mark(Mark::CloseParen)?;
            Ok((all, rest))
        }
    }
}
