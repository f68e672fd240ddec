//! Readers of items that hold no other items.

ghost use Rattle.std.specs.Prelude.{◌+◌, ◌≤◌, ◌<◌, IfOk, length};
ghost use Rattle.vl_item.specs.declared.start.Start.TheVariants as start;
ghost use Rattle.vl_item.specs.Readers.{ReadsPlainItem, ReadsSort};

use crate::start::{Start, start_of};
use dt_core::limits::MAX_DEPTH;
use std::alloc::Global;
use vl_declaration::{read_event, read_key};
use vl_declared::read_declared;
use vl_function::read_function;
use vl_header::{Instances, read_parameter_binds};
use vl_read::commas::read_commas;
use vl_read::cursor::Cursor;
use vl_read::fault::Fault;
use vl_simple::read_name;
use vl_statement::read_statement;
use vl_tree::item::Item;
use vl_tree::token::{Key, Mark};

// `always`, an event and a statement (IEEE 1364-2005, A.6.2).
fn read_always<'a>(alloc: Global, at: Cursor<'a>, depth: u32) -> Result<(Item, Cursor<'a>), Fault>
    requires low { depth ≤ MAX_DEPTH + 1 }
    ensures reads { ReadsSort start.Always depth at.entry result }
    ensures shorter { IfOk result (λ x. length x.1 < length at.entry) }
    ensures shallow { IfOk result (λ x. depth ≤ MAX_DEPTH) }
{
    let (place, after) = read_key(&at, Key::Always, depth)?;
    let (event, after) = read_event(alloc, after, depth)?;
    let (body, rest) = read_statement(alloc, after, depth)?;
    Ok((Item::Always(place, event, body), rest))
}

// `initial` and a statement (A.6.2).
fn read_initial<'a>(alloc: Global, at: Cursor<'a>, depth: u32) -> Result<(Item, Cursor<'a>), Fault>
    requires low { depth ≤ MAX_DEPTH + 1 }
    ensures reads { ReadsSort start.Initial depth at.entry result }
    ensures shorter { IfOk result (λ x. length x.1 < length at.entry) }
    ensures shallow { IfOk result (λ x. depth ≤ MAX_DEPTH) }
{
    let (place, after) = read_key(&at, Key::Initial, depth)?;
    let (body, rest) = read_statement(alloc, after, depth)?;
    Ok((Item::Initial(place, body), rest))
}

// A function (A.2.6).
fn read_function_item<'a>(
    alloc: Global,
    at: Cursor<'a>,
    depth: u32,
) -> Result<(Item, Cursor<'a>), Fault>
    requires low { depth ≤ MAX_DEPTH + 1 }
    ensures reads { ReadsSort start.Function depth at.entry result }
    ensures shorter { IfOk result (λ x. length x.1 < length at.entry) }
    ensures shallow { IfOk result (λ x. depth ≤ MAX_DEPTH) }
{
    let (place, after) = read_key(&at, Key::Function, depth)?;
    let (function, rest) = read_function(alloc, after, depth, place)?;
    Ok((Item::Function(function), rest))
}

// A module's name, the values of its parameters, and its instances (A.4.1).
fn read_instances<'a>(
    alloc: Global,
    at: Cursor<'a>,
    depth: u32,
) -> Result<(Item, Cursor<'a>), Fault>
    requires low { depth ≤ MAX_DEPTH + 1 }
    ensures reads { ReadsSort start.Instances depth at.entry result }
    ensures shorter { IfOk result (λ x. length x.1 < length at.entry) }
    ensures shallow { IfOk result (λ x. depth ≤ MAX_DEPTH) }
{
    let (module, after) = read_name(alloc, at, depth)?;
    let (values, after) = read_parameter_binds(alloc, after, depth)?;
    let (instances, after) = read_commas::<Instances>(alloc, after, depth)?;
    let rest = after.pass_mark(Mark::Semicolon)?;
    Ok((Item::Instances(module, values, instances), rest))
}

/// An item that is no `generate`, `for` or `if` (A.1.4, A.4.2), at this depth.
pub fn read_plain_item<'a>(
    alloc: Global,
    at: Cursor<'a>,
    depth: u32,
) -> Result<(Item, Cursor<'a>), Fault>
    requires low { depth ≤ MAX_DEPTH + 1 }
    ensures reads { ReadsPlainItem depth at.entry result }
    ensures shorter { IfOk result (λ x. length x.1 < length at.entry) }
    ensures shallow { IfOk result (λ x. depth ≤ MAX_DEPTH) }
{
    let Some((token, _, _)) = at.next() else {
        return Err(Fault::At(at.left()));
    };
    let Some(start) = start_of(token) else {
        return Err(Fault::At(at.left()));
    };
    match start {
        Start::Declaration => read_declared(alloc, at, depth),
        Start::Always => read_always(alloc, at, depth),
        Start::Initial => read_initial(alloc, at, depth),
        Start::Function => read_function_item(alloc, at, depth),
        Start::Instances => read_instances(alloc, at, depth),
    }
}
