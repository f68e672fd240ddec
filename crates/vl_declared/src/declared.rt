//! Readers of items that declare names, one for each rule.

ghost use Rattle.std.specs.Prelude.{◌+◌, ◌≤◌, ◌<◌, ◌≡◌, IfOk, length};
ghost use Rattle.vl_tree.specs.Token as k;
ghost use Rattle.vl_tree.specs.declared.token.Key.TheVariants as w;
ghost use Rattle.vl_tree.specs.Modules.{parameter_word};
ghost use Rattle.vl_declared.specs.Readers.{ReadsDeclared, FindsWord, Begins, BeginsDirected};

use dt_core::limits::MAX_DEPTH;
use std::alloc::Global;
use vl_declaration::{Drives, Names, Nets, ValuedNames, Variables, read_key, read_shape};
use vl_header::read_directed;
use vl_read::commas::read_commas;
use vl_read::cursor::Cursor;
use vl_read::fault::Fault;
use vl_tree::item::Item;
use vl_tree::token::{Key, Mark, TokenKind};

// The keyword that comes first.
fn first_word<'a>(at: &Cursor<'a>) -> Option<Key>
    ensures { FindsWord at.now result }
{
    let (token, _, _) = at.next()?;
    match token.kind {
        TokenKind::Key(key) => Some(key),
        _ => None,
    }
}

// The word of a parameter, `localparam` where true.
fn word_of_parameter(local: bool) -> Key
    ensures { result ≡ parameter_word local }
{
    if local {
        Key::Localparam
    } else {
        Key::Parameter
    }
}

// Parameters (A.2.1.1), local ones where true.
fn read_parameters<'a>(
    alloc: Global,
    at: Cursor<'a>,
    depth: u32,
    local: bool,
) -> Result<(Item, Cursor<'a>), Fault>
    requires low { depth ≤ MAX_DEPTH + 1 }
    requires first { Begins (k.key (parameter_word local)) at }
    ensures reads { ReadsDeclared depth at.entry result }
    ensures shorter { IfOk result (λ x. length x.1 < length at.entry) }
    ensures shallow { IfOk result (λ x. depth ≤ MAX_DEPTH) }
{
    let word = word_of_parameter(local);
    let (place, inner) = read_key(&at, word, depth)?;
    let (shape, after) = read_shape(alloc, inner, depth)?;
    let (names, last) = read_commas::<ValuedNames>(alloc, after, depth)?;
    let rest = last.pass_mark(Mark::Semicolon)?;
    let item = Item::Parameter(place, local, shape.signed, shape.range, names);
    Ok((item, rest))
}

// Ports that have their direction in the module's body (A.2.1.2).
fn read_ports<'a>(alloc: Global, at: Cursor<'a>, depth: u32) -> Result<(Item, Cursor<'a>), Fault>
    requires low { depth ≤ MAX_DEPTH + 1 }
    requires first { BeginsDirected at }
    ensures reads { ReadsDeclared depth at.entry result }
    ensures shorter { IfOk result (λ x. length x.1 < length at.entry) }
    ensures shallow { IfOk result (λ x. depth ≤ MAX_DEPTH) }
{
    let (directed, after) = read_directed(alloc, at, depth)?;
    let (names, last) = read_commas::<Names>(alloc, after, depth)?;
    let rest = last.pass_mark(Mark::Semicolon)?;
    Ok((Item::Directed(directed, names), rest))
}

// Nets (A.2.1.3).
fn read_nets<'a>(alloc: Global, at: Cursor<'a>, depth: u32) -> Result<(Item, Cursor<'a>), Fault>
    requires low { depth ≤ MAX_DEPTH + 1 }
    requires first { Begins (k.key w.Wire) at }
    ensures reads { ReadsDeclared depth at.entry result }
    ensures shorter { IfOk result (λ x. length x.1 < length at.entry) }
    ensures shallow { IfOk result (λ x. depth ≤ MAX_DEPTH) }
{
    let (place, inner) = read_key(&at, Key::Wire, depth)?;
    let (shape, after) = read_shape(alloc, inner, depth)?;
    let (names, last) = read_commas::<Nets>(alloc, after, depth)?;
    let rest = last.pass_mark(Mark::Semicolon)?;
    let item = Item::Nets(place, shape.signed, shape.range, names);
    Ok((item, rest))
}

// Registers (A.2.1.3).
fn read_registers<'a>(
    alloc: Global,
    at: Cursor<'a>,
    depth: u32,
) -> Result<(Item, Cursor<'a>), Fault>
    requires low { depth ≤ MAX_DEPTH + 1 }
    requires first { Begins (k.key w.Reg) at }
    ensures reads { ReadsDeclared depth at.entry result }
    ensures shorter { IfOk result (λ x. length x.1 < length at.entry) }
    ensures shallow { IfOk result (λ x. depth ≤ MAX_DEPTH) }
{
    let (place, inner) = read_key(&at, Key::Reg, depth)?;
    let (shape, after) = read_shape(alloc, inner, depth)?;
    let (names, last) = read_commas::<Variables>(alloc, after, depth)?;
    let rest = last.pass_mark(Mark::Semicolon)?;
    let item = Item::Registers(place, shape.signed, shape.range, names);
    Ok((item, rest))
}

// Integers (A.2.1.3).
fn read_integers<'a>(alloc: Global, at: Cursor<'a>, depth: u32) -> Result<(Item, Cursor<'a>), Fault>
    requires low { depth ≤ MAX_DEPTH + 1 }
    requires first { Begins (k.key w.Integer) at }
    ensures reads { ReadsDeclared depth at.entry result }
    ensures shorter { IfOk result (λ x. length x.1 < length at.entry) }
    ensures shallow { IfOk result (λ x. depth ≤ MAX_DEPTH) }
{
    let (place, after) = read_key(&at, Key::Integer, depth)?;
    let (names, last) = read_commas::<Variables>(alloc, after, depth)?;
    let rest = last.pass_mark(Mark::Semicolon)?;
    Ok((Item::Integer(place, names), rest))
}

// Variables of generate loops (A.4.2).
fn read_genvars<'a>(alloc: Global, at: Cursor<'a>, depth: u32) -> Result<(Item, Cursor<'a>), Fault>
    requires low { depth ≤ MAX_DEPTH + 1 }
    requires first { Begins (k.key w.Genvar) at }
    ensures reads { ReadsDeclared depth at.entry result }
    ensures shorter { IfOk result (λ x. length x.1 < length at.entry) }
    ensures shallow { IfOk result (λ x. depth ≤ MAX_DEPTH) }
{
    let (place, after) = read_key(&at, Key::Genvar, depth)?;
    let (names, last) = read_commas::<Names>(alloc, after, depth)?;
    let rest = last.pass_mark(Mark::Semicolon)?;
    Ok((Item::Genvar(place, names), rest))
}

// Continuous assignments (A.6.1).
fn read_continuous<'a>(
    alloc: Global,
    at: Cursor<'a>,
    depth: u32,
) -> Result<(Item, Cursor<'a>), Fault>
    requires low { depth ≤ MAX_DEPTH + 1 }
    requires first { Begins (k.key w.Assign) at }
    ensures reads { ReadsDeclared depth at.entry result }
    ensures shorter { IfOk result (λ x. length x.1 < length at.entry) }
    ensures shallow { IfOk result (λ x. depth ≤ MAX_DEPTH) }
{
    let (place, after) = read_key(&at, Key::Assign, depth)?;
    let (names, last) = read_commas::<Drives>(alloc, after, depth)?;
    let rest = last.pass_mark(Mark::Semicolon)?;
    Ok((Item::Continuous(place, names), rest))
}

/// An item that declares names, or continuous assignments (IEEE 1364-2005, A.2.1, A.4.2, A.6.1), at this depth.
pub fn read_declared<'a>(
    alloc: Global,
    at: Cursor<'a>,
    depth: u32,
) -> Result<(Item, Cursor<'a>), Fault>
    requires low { depth ≤ MAX_DEPTH + 1 }
    ensures reads { ReadsDeclared depth at.entry result }
    ensures shorter { IfOk result (λ x. length x.1 < length at.entry) }
    ensures shallow { IfOk result (λ x. depth ≤ MAX_DEPTH) }
{
    let Some(word) = first_word(&at) else {
        return Err(Fault::At(at.left()));
    };
    match word {
        Key::Parameter => read_parameters(alloc, at, depth, false),
        Key::Localparam => read_parameters(alloc, at, depth, true),
        Key::Input => read_ports(alloc, at, depth),
        Key::Output => read_ports(alloc, at, depth),
        Key::Wire => read_nets(alloc, at, depth),
        Key::Reg => read_registers(alloc, at, depth),
        Key::Integer => read_integers(alloc, at, depth),
        Key::Genvar => read_genvars(alloc, at, depth),
        Key::Assign => read_continuous(alloc, at, depth),
        _ => Err(Fault::At(at.left())),
    }
}
