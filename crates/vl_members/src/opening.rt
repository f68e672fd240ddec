//! What stands at the beginning of a scope: the names in sight in it, and all that it declares.

ghost use Rattle.std.specs.Prelude.{◌≡◌, ◌++◌, ◌∷◌, [], OnOk, IfOk, map};
ghost use Rattle.vl_tree.specs.SyntaxView as view;
ghost use Rattle.vl_design.specs.Limits.{limits};
ghost use Rattle.vl_design.specs.Scopes as scopes;
ghost use Rattle.vl_views.specs.Blocks.{items_of, block_of};
ghost use Rattle.vl_frames.specs.Marks.{IsNew, around};
ghost use Rattle.vl_declares.specs.Plain.{all_plain};
ghost use Rattle.vl_parameters.specs.Plain.{plain_given};
ghost use Rattle.vl_members.specs.Opening.{EntersBlock, EntersModule, HasMembers, OpensModule};

use crate::members::declare_items;
use std::alloc::{AllocError, Global};
use vl_declares::declared::Declared;
use vl_declares::header::declare_header;
use vl_declares::header_ports::declare_header_ports;
use vl_found::{Found, lesser};
use vl_frames::frames::Frames;
use vl_frames::notes::{enter_items, note_genvars};
use vl_parameters::worth::Given;
use vl_tree::item::{GenerateBlock, Item, Module, Port};

/// The names in sight at the entry of a module, all that it declares, and the least fault of its header.
#[derive(Drop)]
pub struct Opened<'a> {
    pub frames: Frames,
    pub declared: Vec<Declared<'a>>,
    pub fault: Option<Found>,
}

/// Opens a module, to whose parameters values are given.
pub fn open_module<'a>(
    alloc: Global,
    given: &[Given<'_>],
    parent: &'a Module,
) -> Result<Opened<'a>, AllocError>
    ensures { let gs = map plain_given given.now in let m = view.module_tree parent.now in
        IfOk result (λ o. OpensModule gs m o.frames o.declared.items o.fault) }
{
    let mut frames = Frames::new(alloc);
    let mut declared = Vec::new(alloc);
    let fault = enter_module(alloc, &mut frames, given, parent, &mut declared)?;
    declare_members(
        alloc,
        &mut frames,
        given,
        parent.items.as_slice(),
        &mut declared,
    )?;
    Ok(Opened {
        frames,
        declared,
        fault,
    })
}

// Enters a module: its genvars and the constants of its header are in sight. What the header declares, and its least fault.
fn enter_module<'a>(
    alloc: Global,
    frames: &mut Frames,
    given: &[Given<'_>],
    parent: &'a Module,
    declared: &mut Vec<Declared<'a>>,
) -> Result<Option<Found>, AllocError>
    requires { IsNew frames.now }
    ensures { let gs = map plain_given given.now in let m = view.module_tree parent.now in
        IfOk result (λ f. EntersModule gs m frames.new declared.old.items declared.new.items f) }
{
    note_genvars(alloc, frames, parent.items.as_slice())?;
    let parameters = parent.parameters.as_slice();
    let fault = declare_header(alloc, frames, given, parameters, declared)?;
    let found = declare_header_ports(alloc, frames, ports_of(parent), declared)?;
    Ok(lesser(fault, found))
}

/// The ports of a module's header.
pub fn ports_of(parent: &Module) -> &[Port]
    ensures { map view.port result.now ≡ scopes.ports_of (view.module_tree parent.now) }
{
    match &parent.ports {
        Some(ports) => ports.as_slice(),
        None => &[],
    }
}

/// Enters the scope of a block, whose objects and genvars are in sight; what it declares.
pub fn open_block<'a>(
    alloc: Global,
    frames: &mut Frames,
    block: &'a GenerateBlock<Item>,
) -> Result<Vec<Declared<'a>>, AllocError>
    ensures { let b = block_of block.now in
        IfOk result (λ ds. EntersBlock b frames.old frames.new ds.items) }
{
    let items = items_in(block);
    frames.enter(alloc)?;
    enter_items(alloc, frames, items)?;
    let mut declared = Vec::new(alloc);
    declare_members(alloc, frames, &[], items, &mut declared)?;
    Ok(declared)
}

/// The items of a block: its one item where it has no `begin`.
pub fn items_in(block: &GenerateBlock<Item>) -> &[Item]
    ensures { items_of result.now ≡ scopes.body_items (block_of block.now) }
{
    match block {
        GenerateBlock::Single(item) => std::slice::from_ref(item.get()),
        GenerateBlock::Several(_, _, items) => items.as_slice(),
    }
}

// Declares what the items of a scope declare, and leaves the names in sight as they were.
fn declare_members<'a>(
    alloc: Global,
    frames: &mut Frames,
    given: &[Given<'_>],
    items: &'a [Item],
    declared: &mut Vec<Declared<'a>>,
) -> Result<(), AllocError>
    ensures { let gs = map plain_given given.now in let is = items_of items.now in
        OnOk result (HasMembers (scopes.declared limits gs (around frames.old) is) frames.old frames.new declared.old.items declared.new.items) }
{
    frames.enter(alloc)?;
    declare_items(alloc, frames, given, items, declared)?;
    frames.leave();
    Ok(())
}
