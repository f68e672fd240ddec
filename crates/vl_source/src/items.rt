//! Readers of items, one for each rule that holds items.

ghost use Rattle.std.specs.Prelude.{◌+◌, ◌≤◌, ◌<◌, IfOk, IfSome, length};
ghost use Rattle.vl_tree.specs.Token as k;
ghost use Rattle.vl_tree.specs.declared.token.Key.TheVariants as w;
ghost use Rattle.vl_tree.specs.SyntaxView as view;
ghost use Rattle.vl_source.specs.Readers.{FindsStructure, IsClosing, ReadsItem, ReadsItems, ReadsAfter, ReadsBlock, ReadsBranch};

use dt_core::limits::MAX_DEPTH;
use dt_core::place::Place;
use sqlite_items::{Boxed, Items};
use std::alloc::Global;
use vl_item::read_plain_item;
use vl_read::cursor::Cursor;
use vl_read::fault::Fault;
use vl_simple::{read_grouped, read_label};
use vl_statement::read_loop;
use vl_tree::item::{GenerateBlock, GenerateBranch, Item};
use vl_tree::token::Key;

/// What holds items in an item.
#[derive(Clone, Copy)]
enum Structure {
    /// `generate`
    Region,
    /// `for`
    Loop,
    /// `if`
    Choice,
}

// The structure that comes first, the place of its word, and the tokens after that.
fn find_structure<'a>(at: &Cursor<'a>) -> Option<(Structure, Place, Cursor<'a>)>
    ensures reads { FindsStructure at.now result }
    ensures shorter { IfSome result (λ x. length x.2 < length at.now) }
{
    match at.find_key(Key::Generate) {
        Some((place, rest)) => Some((Structure::Region, place, rest)),
        None => {
            match at.find_key(Key::For) {
                Some((place, rest)) => Some((Structure::Loop, place, rest)),
                None => {
                    match at.find_key(Key::If) {
                        Some((place, rest)) => Some((Structure::Choice, place, rest)),
                        None => None,
                    }
                }
            }
        }
    }
}

/// An item (IEEE 1364-2005, A.1.4, A.4.2), at this depth.
#[cycle(item)]
pub fn read_item<'a>(alloc: Global, at: Cursor<'a>, depth: u32) -> Result<(Item, Cursor<'a>), Fault>
    requires low { depth ≤ MAX_DEPTH + 1 }
    ensures reads { ReadsItem depth at.entry result }
    ensures shorter { IfOk result (λ x. length x.1 < length at.entry) }
    ensures shallow { IfOk result (λ x. depth ≤ MAX_DEPTH) }
{
    let Some((structure, place, rest)) = find_structure(&at) else {
        return read_plain_item(alloc, at, depth);
    };
    if depth > MAX_DEPTH {
        return Err(Fault::Deep(at.left()));
    }
    match structure {
        Structure::Region => read_region(alloc, rest, depth, place),
        Structure::Loop => read_generate_loop(alloc, rest, depth, place),
        Structure::Choice => read_generate_if(alloc, rest, depth, place),
    }
}

/// Items up to this closing keyword, which stands at this depth, and the tokens after it. The items are deeper by one.
#[cycle(item)]
pub fn read_items<'a>(
    alloc: Global,
    at: Cursor<'a>,
    depth: u32,
    last: Key,
) -> Result<(Items<Item>, Cursor<'a>), Fault>
    requires low { depth ≤ MAX_DEPTH }
    requires closing { IsClosing last }
    ensures reads { ReadsItems last depth at.entry result }
    ensures shorter { IfOk result (λ x. length x.1 < length at.entry) }
{
    let mut items = Items::new(alloc);
    let mut rest = at;
    loop {
        match rest.find_key(last) {
            Some((_, after)) => return Ok((items, after)),
            None => {
                let (item, after) = read_item(alloc, rest, depth + 1)?;
                items.push(item)?;
                rest = after;
            }
        }
    }
}

// A region, from after `generate` on.
#[cycle(item)]
fn read_region<'a>(
    alloc: Global,
    at: Cursor<'a>,
    depth: u32,
    place: Place,
) -> Result<(Item, Cursor<'a>), Fault>
    requires low { depth ≤ MAX_DEPTH }
    ensures reads { ReadsAfter (k.key w.Generate) (view.place place) depth at.entry result }
    ensures shorter { IfOk result (λ x. length x.1 < length at.entry) }
{
    let (items, rest) = read_items(alloc, at, depth, Key::Endgenerate)?;
    Ok((Item::Region(place, items), rest))
}

// A loop, from after `for` on.
#[cycle(item)]
fn read_generate_loop<'a>(
    alloc: Global,
    at: Cursor<'a>,
    depth: u32,
    place: Place,
) -> Result<(Item, Cursor<'a>), Fault>
    requires low { depth ≤ MAX_DEPTH }
    ensures reads { ReadsAfter (k.key w.For) (view.place place) depth at.entry result }
    ensures shorter { IfOk result (λ x. length x.1 < length at.entry) }
{
    let (header, rest) = read_loop(alloc, at, depth)?;
    let (block, rest) = read_generate_block(alloc, rest, depth + 1)?;
    Ok((Item::GenerateLoop(place, header, block), rest))
}

// Branches and a last `else`, from after the first `if` on.
#[cycle(item)]
fn read_generate_if<'a>(
    alloc: Global,
    at: Cursor<'a>,
    depth: u32,
    place: Place,
) -> Result<(Item, Cursor<'a>), Fault>
    requires low { depth ≤ MAX_DEPTH }
    ensures reads { ReadsAfter (k.key w.If) (view.place place) depth at.entry result }
    ensures shorter { IfOk result (λ x. length x.1 < length at.entry) }
{
    let (first, after) = read_generate_branch(alloc, at, depth, place)?;
    let mut branches = Items::new(alloc);
    branches.push(first)?;
    let mut rest = after;
    loop {
        let Some((_, after)) = rest.find_key(Key::Else) else {
            return Ok((Item::GenerateIf(branches, None), rest));
        };
        match after.find_key(Key::If) {
            Some((place, inner)) => {
                let (branch, after) = read_generate_branch(alloc, inner, depth, place)?;
                branches.push(branch)?;
                rest = after;
            }
            None => {
                let (block, after) = read_generate_block(alloc, after, depth + 1)?;
                return Ok((Item::GenerateIf(branches, Some(block)), after));
            }
        }
    }
}

// A condition and its block, from after an `if` with this place on.
#[cycle(item)]
fn read_generate_branch<'a>(
    alloc: Global,
    at: Cursor<'a>,
    depth: u32,
    place: Place,
) -> Result<(GenerateBranch<Item>, Cursor<'a>), Fault>
    requires low { depth ≤ MAX_DEPTH }
    ensures reads { ReadsBranch (view.place place) depth at.entry result }
    ensures shorter { IfOk result (λ x. length x.1 < length at.entry) }
{
    let (condition, rest) = read_grouped(alloc, at, depth)?;
    let (block, rest) = read_generate_block(alloc, rest, depth + 1)?;
    let branch = GenerateBranch {
        place,
        condition,
        block,
    };
    Ok((branch, rest))
}

// An item, or `begin`, a label, items and `end`, at this depth.
#[cycle(item)]
fn read_generate_block<'a>(
    alloc: Global,
    at: Cursor<'a>,
    depth: u32,
) -> Result<(GenerateBlock<Item>, Cursor<'a>), Fault>
    requires low { depth ≤ MAX_DEPTH + 1 }
    ensures reads { ReadsBlock depth at.entry result }
    ensures shorter { IfOk result (λ x. length x.1 < length at.entry) }
{
    match at.find_key(Key::Begin) {
        None => {
            let (item, rest) = read_item(alloc, at, depth)?;
            let item = Boxed::new(alloc, item)?;
            Ok((GenerateBlock::Single(item), rest))
        }
        Some((place, after)) => {
            if depth > MAX_DEPTH {
                return Err(Fault::Deep(at.left()));
            }
            let (label, after) = read_label(alloc, after, depth)?;
            let (items, rest) = read_items(alloc, after, depth, Key::End)?;
            Ok((GenerateBlock::Several(place, label, items), rest))
        }
    }
}
