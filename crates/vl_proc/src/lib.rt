//! Lowers the clocked block of a module to actions over nodes: the module's numbered design.
//!
//! Below: `vl_tree` (the tree), `vl_meaning` (what it means), `vl_scope` (the numbers of names), `flat_ir` (the design), `bit_ops`
//! (numbers at a context's width).
//! Above: `vl_front`, which reads the tree. Promise: the design of a sound module stands for the module, has its inputs' widths,
//! and is one that `one_block` takes.
//! `specs/Ports` says what ports become, `specs/Lowers` what a piece of lowering adds.
//! Not said: that memory is enough; more nodes than 2^32 count as out of memory.
#![tactic(auto)]

mod builder;
mod expression;
mod lists;
mod names;
mod statement;
mod table;

ghost use Rattle.std.specs.Prelude.{◌≡◌, true, IfOk};
ghost use Rattle.vl_tree.specs.View.{module_of};
ghost use Rattle.vl_meaning.specs.Faults.{are_stmts, is_sound};
ghost use Rattle.vl_meaning.specs.StandsFor.{StandsFor, input_widths};
ghost use Rattle.one_block.specs.OneBlock as block;
ghost use Rattle.one_block.specs.OneBlock.{IsOneBlock};
ghost use Rattle.vl_proc.specs.Scopes.{IsKnown, module_in};
ghost use Rattle.vl_proc.specs.Lowers.{IsBuilt};

use builder::{Builder, Nodes};
use dt_core::fault::NoMemory;
use dt_core::text::Text;
use flat_ir::design::Node;
use flat_ir::flat::{Flat, FlatDraft};
use names::Scope;
use std::alloc::Global;
use table::Table;
use vl_scope::scope;
use vl_tree::tree::Module;

/// The numbered design that stands for a module.
pub fn lower(alloc: Global, top: &Module) -> Result<Flat, NoMemory>
    requires { is_sound (module_of top.now) ≡ true }
    ensures stands { IfOk result (λ f. StandsFor f (module_of top.now)) }
    ensures one_block { IfOk result IsOneBlock }
    ensures inputs { IfOk result (λ f. block.input_widths f.signals ≡ input_widths (module_of top.now)) }
{
    let table = Table::new(alloc, &top.ports, top.clock.bytes())?;
    let names = scope::Scope::of_ports(alloc, &top.ports)?;
    let scope = Scope {
        module: top,
        names: &names,
        signals: &table.signals,
    };
    let built = clocked_block(alloc, &scope)?;
    let draft = FlatDraft {
        name: Text::copied(alloc, top.name.bytes())?,
        signals: table.signals,
        inputs: table.inputs,
        registers: table.registers,
        nodes: built.nodes.into_list(),
        actions: built.actions,
    };
    Ok(draft.close())
}

// The nodes and the actions of the clocked block, whose condition always holds.
fn clocked_block(alloc: Global, scope: &Scope) -> Result<Builder, NoMemory>
    requires known { IsKnown scope.now }
    requires sound { are_stmts (module_in scope.now) (module_in scope.now).body ≡ true }
    ensures { IfOk result (λ b. IsBuilt (module_in scope.now) b.nodes b.actions.items) }
{
    let mut built = Builder {
        nodes: Nodes::new(alloc),
        actions: Vec::new(alloc),
    };
    let always = built.nodes.add(Node::Constant(1))?;
    statement::block(
        alloc,
        &mut built,
        scope,
        scope.module.body.as_slice(),
        always,
    )?;
    Ok(built)
}
