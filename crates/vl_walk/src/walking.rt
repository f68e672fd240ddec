//! The walk through items, blocks and instances.

ghost use Rattle.std.specs.Prelude.{◌≡◌, ◌+◌, IfOk, OnOk, map};
ghost use Rattle.std.specs.Option.{option_map};
ghost use Rattle.vl_tree.specs.SyntaxView as view;
ghost use Rattle.vl_design.specs.Generate.{constructs_of};
ghost use Rattle.vl_parameters.specs.Plain.{plain_given};
ghost use Rattle.vl_views.specs.Blocks.{items_of, block_of};
ghost use Rattle.vl_opening.specs.Walking.{IsOpen};
ghost use Rattle.vl_walk.specs.Asked.{HearsInstances, HearsModule, IsSite, PassesBlock, PassesItem, PassesItems, PassesLoop, PassesScope, PassesTurn};
ghost use Rattle.vl_walk.specs.Library.{Finds};

use crate::modules::Modules;
use crate::supply::{instance_site, supply_of};
use dt_core::place::Place;
use std::alloc::AllocError;
use vl_design::limits::MAX_TURNS;
use vl_frames::frames::Frames;
use vl_generate::choice::choose;
use vl_generate::construct::number_behind;
use vl_generate::form::{Form, form_of, inner_if};
use vl_generate::step::block_step;
use vl_generate::turning::{Turning, next_turn, number_by};
use vl_members::opening::items_in;
use vl_opening::block::{BlockSite, enter_block};
use vl_opening::instance::{Entered, Site, enter_module, fail_at, refuse_depth};
use vl_opening::plain::pass_plain;
use vl_opening::walk::Walk;
use vl_parameters::worth::Given;
use vl_scopes::scope::Turn;
use vl_tokens::item::turn_tokens;
use vl_tree::expression::Name;
use vl_tree::fault::FaultKind;
use vl_tree::item::{Binds, GenerateBlock, Instance, Item, Module};
use vl_tree::statement::Loop;
use vl_turns::is_genvar_loop;

/// Where items stand: the number of their scope, how many instances may lie in one another there, and whether the scope is a block's.
#[derive(Clone, Copy)]
pub struct Here {
    pub scope: u32,
    pub depth: u32,
    pub in_block: bool,
}

/// Walks through items in order, where the next generate construct has the number n.
#[cycle(walk)]
pub fn walk_items<'a>(
    modules: &Modules<'a>,
    walk: &mut Walk<'a>,
    frames: &mut Frames,
    here: Here,
    given: &[Given<'_>],
    n: u32,
    items: &'a [Item],
) -> Result<(), AllocError>
    requires finds { Finds modules.now }
    requires open { IsOpen walk.now here.scope }
    ensures { let gs = map plain_given given.now in let is = items_of items.now in
        OnOk result (PassesItems modules.now here gs n is frames.old frames.new walk.old walk.new) }
{
    let mut number = n;
    for item in items {
        walk_item(modules, walk, frames, here, given, number, item)?;
        if walk.progress.ended {
            return Ok(());
        }
        number = next_number(number, item)?;
    }
    Ok(())
}

// The number of the next construct behind an item.
fn next_number(n: u32, item: &Item) -> Result<u32, AllocError>
    ensures { let i = view.item item.now in
        IfOk result (λ m. m ≡ n + constructs_of i) }
{
    match number_behind(n, item) {
        Some(number) => Ok(number),
        None => Err(AllocError),
    }
}

/// Walks through an item.
#[cycle(walk)]
pub fn walk_item<'a>(
    modules: &Modules<'a>,
    walk: &mut Walk<'a>,
    frames: &mut Frames,
    here: Here,
    given: &[Given<'_>],
    n: u32,
    item: &'a Item,
) -> Result<(), AllocError>
    requires finds { Finds modules.now }
    requires open { IsOpen walk.now here.scope }
    ensures { let gs = map plain_given given.now in let i = view.item item.now in
        OnOk result (PassesItem modules.now here gs n i frames.old frames.new walk.old walk.new) }
{
    match form_of(item) {
        Form::Plain => {
            pass_plain(modules.alloc, walk, frames, given, here.in_block, item)?;
            Ok(())
        }
        Form::Instances(name, values, all) => {
            walk_instances(modules, walk, frames, here, name, values, all)?;
            Ok(())
        }
        Form::Region(items) => {
            walk_items(modules, walk, frames, here, given, n, items)?;
            Ok(())
        }
        Form::Repeated(place, header, block) => {
            walk_loop(modules, walk, frames, here, n, place, header, block)?;
            Ok(())
        }
        Form::Chosen(branches, last) => {
            let choice = choose(modules.alloc, frames, branches, last)?;
            walk.progress.fail(choice.fault);
            match choice.block {
                Some(block) => {
                    walk_block(modules, walk, frames, here, given, n, block)?;
                    Ok(())
                }
                None => Ok(()),
            }
        }
    }
}

/// Walks through the block of an `if` that is taken: an `if` that stands directly as one makes no scope.
#[cycle(walk)]
pub fn walk_block<'a>(
    modules: &Modules<'a>,
    walk: &mut Walk<'a>,
    frames: &mut Frames,
    here: Here,
    given: &[Given<'_>],
    n: u32,
    block: &'a GenerateBlock<Item>,
) -> Result<(), AllocError>
    requires finds { Finds modules.now }
    requires open { IsOpen walk.now here.scope }
    ensures { let gs = map plain_given given.now in let b = block_of block.now in
        OnOk result (PassesBlock modules.now here gs n b frames.old frames.new walk.old walk.new) }
{
    match inner_if(block) {
        Some(inner) => {
            walk_item(modules, walk, frames, here, given, n, inner)?;
            Ok(())
        }
        None => {
            let site = BlockSite {
                within: here.scope,
                step: block_step(n, block, None),
                turn: None,
            };
            walk_scope(modules, walk, frames, here.depth, site, block)?;
            Ok(())
        }
    }
}

/// Walks through a block that makes a scope.
#[cycle(walk)]
pub fn walk_scope<'a>(
    modules: &Modules<'a>,
    walk: &mut Walk<'a>,
    frames: &mut Frames,
    depth: u32,
    site: BlockSite<'a>,
    block: &'a GenerateBlock<Item>,
) -> Result<(), AllocError>
    requires { Finds modules.now }
    ensures { let b = block_of block.now in
        OnOk result (PassesScope modules.now depth site.entry b frames.old frames.new walk.old walk.new) }
{
    match enter_block(modules.alloc, walk, frames, site, block)? {
        Some(scope) => {
            let inside = Here {
                scope,
                depth,
                in_block: true,
            };
            walk_items(modules, walk, frames, inside, &[], 1, items_in(block))?;
            frames.leave();
            Ok(())
        }
        None => {
            frames.leave();
            Ok(())
        }
    }
}

/// Walks through a generate loop, turn by turn.
#[cycle(walk)]
pub fn walk_loop<'a>(
    modules: &Modules<'a>,
    walk: &mut Walk<'a>,
    frames: &mut Frames,
    here: Here,
    n: u32,
    place: Place,
    header: &'a Loop,
    block: &'a GenerateBlock<Item>,
) -> Result<(), AllocError>
    requires finds { Finds modules.now }
    requires open { IsOpen walk.now here.scope }
    ensures { let p = view.place place in let l = view.loop header.now in let b = block_of block.now in
        OnOk result (PassesLoop modules.now here n p l b frames.old frames.new walk.old walk.new) }
{
    if !is_genvar_loop(frames, header) {
        fail_at(walk, place, FaultKind::Misplaced);
        return Ok(());
    }
    let mut taken = number_by(modules.alloc, frames, &header.first)?;
    let mut left = MAX_TURNS;
    'turns: while !walk.progress.ended {
        match next_turn(modules.alloc, frames, place, header, taken, left)? {
            Turning::End(fault) => {
                walk.progress.fail(fault);
                return Ok(());
            }
            Turning::Turn(number, following) => {
                walk_turn(modules, walk, frames, here, n, header, block, number)?;
                frames.leave();
                taken = following;
                left -= 1;
            }
        }
    }
    Ok(())
}

/// Walks through the turn of a number, which is entered.
#[cycle(walk)]
pub fn walk_turn<'a>(
    modules: &Modules<'a>,
    walk: &mut Walk<'a>,
    frames: &mut Frames,
    here: Here,
    n: u32,
    header: &'a Loop,
    block: &'a GenerateBlock<Item>,
    number: u32,
) -> Result<(), AllocError>
    requires { Finds modules.now }
    ensures { let l = view.loop header.now in let b = block_of block.now in
        OnOk result (PassesTurn modules.now here n l b number frames.old frames.new walk.old walk.new) }
{
    walk.progress.expand(turn_tokens(block));
    let site = BlockSite {
        within: here.scope,
        step: block_step(n, block, Some(number)),
        turn: Some(Turn {
            variable: &header.variable,
            number,
        }),
    };
    walk_scope(modules, walk, frames, here.depth, site, block)?;
    Ok(())
}

/// Walks through instances of the module of a name.
#[cycle(walk)]
pub fn walk_instances<'a>(
    modules: &Modules<'a>,
    walk: &mut Walk<'a>,
    frames: &Frames,
    here: Here,
    name: &Name,
    values: &'a Option<Option<Binds>>,
    instances: &'a [Instance],
) -> Result<(), AllocError>
    requires finds { Finds modules.now }
    requires open { IsOpen walk.now here.scope }
    ensures { let x = view.name name.now in let ps = option_map (option_map view.binds) values.now in
        let is = map view.instance instances.now in
        OnOk result (HearsInstances modules.now here x ps is frames.now walk.old walk.new) }
{
    match supply_of(modules, walk, frames, name, values, instances)? {
        Some(supplied) => {
            let parent = supplied.parent;
            let given = supplied.given.as_slice();
            for instance in instances {
                if walk.progress.ended {
                    return Ok(());
                }
                let site = instance_site(here.scope, parent, instance);
                walk_module(modules, walk, here.depth, site, given, parent)?;
            }
            Ok(())
        }
        None => Ok(()),
    }
}

/// Walks through a module as an instance of it stands, of which so many may lie in one another.
#[cycle(walk)]
pub fn walk_module<'a>(
    modules: &Modules<'a>,
    walk: &mut Walk<'a>,
    depth: u32,
    site: Site<'a>,
    given: &[Given<'_>],
    parent: &'a Module,
) -> Result<(), AllocError>
    requires finds { Finds modules.now }
    requires site { IsSite walk.now site (map plain_given given.now) (view.module_tree parent.now) }
    ensures { let gs = map plain_given given.now in let m = view.module_tree parent.now in
        OnOk result (HearsModule modules.now depth site.entry gs m walk.old walk.new) }
{
    if depth == 0 {
        refuse_depth(walk, site.place);
        return Ok(());
    }
    match enter_module(modules.alloc, walk, site, given, parent)? {
        Some(entered) => {
            let Entered { mut frames, scope } = entered;
            let here = Here {
                scope,
                depth: depth - 1,
                in_block: false,
            };
            let items = parent.items.as_slice();
            walk_items(modules, walk, &mut frames, here, given, 1, items)?;
            Ok(())
        }
        None => Ok(()),
    }
}
