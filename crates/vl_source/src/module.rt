//! Readers of modules.

ghost use Rattle.std.specs.Prelude.{◌≤◌, ◌<◌, IfOk, length};
ghost use Rattle.vl_tree.specs.SyntaxView as view;
ghost use Rattle.vl_source.specs.Readers.{ReadsPorts, ReadsModule, ReadsModules};

use crate::items::read_items;
use dt_core::place::Place;
use sqlite_items::Items;
use std::alloc::Global;
use vl_header::{read_closed_ports, read_header_parameters};
use vl_read::cursor::Cursor;
use vl_read::fault::Fault;
use vl_tree::item::{Module, Port};
use vl_tree::token::{Key, Mark};

// The ports of a module's header, if it has parentheses.
fn read_ports<'a>(alloc: Global, at: Cursor<'a>) -> Result<(Option<Items<Port>>, Cursor<'a>), Fault>
    ensures reads { ReadsPorts at.entry result }
    ensures shorter { IfOk result (λ x. length x.1 ≤ length at.entry) }
{
    match at.find_mark(Mark::OpenParen) {
        None => Ok((None, at)),
        Some((_, inner)) => {
            let (ports, rest) = read_closed_ports(alloc, inner, 0)?;
            Ok((Some(ports), rest))
        }
    }
}

// A module (IEEE 1364-2005, A.1.2), from after `module` with this place on.
fn read_module<'a>(
    alloc: Global,
    at: Cursor<'a>,
    place: Place,
) -> Result<(Module, Cursor<'a>), Fault>
    ensures reads { ReadsModule (view.place place) at.entry result }
    ensures shorter { IfOk result (λ x. length x.1 < length at.entry) }
{
    let (name, rest) = at.expect_name(alloc)?;
    let (parameters, rest) = read_header_parameters(alloc, rest, 0)?;
    let (ports, rest) = read_ports(alloc, rest)?;
    let rest = rest.pass_mark(Mark::Semicolon)?;
    let (items, rest) = read_items(alloc, rest, 0, Key::Endmodule)?;
    let tree = Module {
        place,
        name,
        parameters,
        ports,
        items,
    };
    Ok((tree, rest))
}

/// Modules, one after another, up to a token that begins none.
pub fn read_modules<'a>(alloc: Global, at: Cursor<'a>) -> Result<(Items<Module>, Cursor<'a>), Fault>
    ensures reads { ReadsModules at.entry result }
{
    let mut modules = Items::new(alloc);
    let mut rest = at;
    loop {
        match rest.find_key(Key::Module) {
            None => return Ok((modules, rest)),
            Some((place, inner)) => {
                let (tree, after) = read_module(alloc, inner, place)?;
                modules.push(tree)?;
                rest = after;
            }
        }
    }
}
