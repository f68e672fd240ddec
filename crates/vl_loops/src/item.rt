//! Loops of items.

ghost use Rattle.std.specs.Prelude.{◌≡◌, ◌++◌, ◌∷◌, [], map, OnOk};
ghost use Rattle.std.specs.Option.{option_map};
ghost use Rattle.vl_tree.specs.SyntaxView as view;
ghost use Rattle.vl_design.specs.LoopVariables as design;
ghost use Rattle.vl_views.specs.Blocks.{items_of};
ghost use Rattle.vl_loops.specs.Loops.{AddsLoops, loops_by, loops_in, loops_with, text_of};

use crate::statement::loop_names;
use std::alloc::{AllocError, Global};
use vl_tree::expression::Name;
use vl_tree::item::Item;
use vl_tree::statement::Stmt;

/// The variables of the loops of one process or function, and the name of the function.
#[derive(Drop)]
pub struct Loops<'a> {
    pub function: Option<&'a Name>,
    pub variables: Vec<&'a Name>,
}

/// Appends the loops of the items of a scope.
#[cycle(items)]
pub fn gather<'a>(
    alloc: Global,
    items: &'a [Item],
    loops: &mut Vec<Loops<'a>>,
) -> Result<(), AllocError>
    ensures { let is = items_of items.now in
        OnOk result (AddsLoops (loops_in is) loops.old.items loops.new.items) }
{
    for item in items {
        gather_one(alloc, item, loops)?;
    }
    Ok(())
}

#[cycle(items)]
fn gather_one<'a>(
    alloc: Global,
    item: &'a Item,
    loops: &mut Vec<Loops<'a>>,
) -> Result<(), AllocError>
    ensures { let i = view.item item.now in
        OnOk result (AddsLoops (loops_by i) loops.old.items loops.new.items) }
{
    match item {
        Item::Always(_, _, body) => push_loops(alloc, None, body, loops),
        Item::Initial(_, body) => push_loops(alloc, None, body, loops),
        Item::Function(function) => push_loops(alloc, Some(&function.name), &function.body, loops),
        Item::Region(_, items) => gather(alloc, items.as_slice(), loops),
        Item::Parameter(_, _, _, _, _) => Ok(()),
        Item::Directed(_, _) => Ok(()),
        Item::Nets(_, _, _, _) => Ok(()),
        Item::Registers(_, _, _, _) => Ok(()),
        Item::Integer(_, _) => Ok(()),
        Item::Genvar(_, _) => Ok(()),
        Item::Continuous(_, _) => Ok(()),
        Item::Instances(_, _, _) => Ok(()),
        Item::GenerateLoop(_, _, _) => Ok(()),
        Item::GenerateIf(_, _) => Ok(()),
    }
}

// Appends the loops of a body.
fn push_loops<'a>(
    alloc: Global,
    function: Option<&'a Name>,
    body: &'a Stmt,
    loops: &mut Vec<Loops<'a>>,
) -> Result<(), AllocError>
    ensures { let one = loops_with (text_of function.entry) (design.loop_names (view.stmt body.now)) in
        OnOk result (AddsLoops (one ∷ []) loops.old.items loops.new.items) }
{
    let mut variables = Vec::new(alloc);
    loop_names(body, &mut variables)?;
    match loops.push(Loops {
        function,
        variables,
    }) {
        Ok(()) => Ok(()),
        Err(_) => Err(AllocError),
    }
}
