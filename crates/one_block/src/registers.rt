//! What each register takes from one cycle to the next.

ghost use Rattle.std.specs.Prelude.{◌≡◌, ◌<◌, ℕ, [], ◌∷◌, ◌++◌, List, IfOk, OnOk, length, map, if◌then◌else◌};
ghost use Rattle.flat_ir.specs.FlatRun as run;
ghost use Rattle.one_block.specs.OneBlock.{IsOneBlock};
ghost use Rattle.one_block.specs.SameDesign.{register_ranges};
ghost use Rattle.one_block.specs.Calls.Nodes as calls;
ghost use Rattle.one_block.specs.Calls.Registers as spec;

use crate::made::Made;
use crate::nodes::Nodes;
use crate::operations::fitted;
use dt_core::fault::NoMemory;
use flat_ir::design::{Action, Deed};
use netlist::design::{Range, RegisterPart};
use netlist::node::Operation;
use std::alloc::{AllocError, Global};

/// For each register the node of its value in the next cycle: of the writes that are done the last one wins.
pub(crate) fn next_nodes(
    alloc: Global,
    nodes: &mut Nodes,
    registers: &[Range],
    made: &[Made],
    actions: &[Action],
) -> Result<Vec<u32>, NoMemory>
    requires { spec.ActionsFit (length registers.now) (length made.now) actions.now }
    ensures count { IfOk result (λ next. length next.items ≡ length registers.now) }
    ensures next { (p : run.Flat) → IsOneBlock p → registers.now ≡ register_ranges 0 p.signals
        → calls.Stands p nodes.old made.now
        → IfOk result (λ next. spec.Takes p nodes.old nodes.new registers.now next.items actions.now) }
{
    let mut next = own_nodes(alloc, registers)?;
    for action in actions {
        write(nodes, registers, made, &mut next, action)?;
    }
    Ok(next)
}

// The node of each register itself.
fn own_nodes(alloc: Global, registers: &[Range]) -> Result<Vec<u32>, AllocError>
    ensures { IfOk result (λ nodes. nodes.items ≡ map (λ range. range.signal) registers.now) }
{
    registers.iter().map(|range| range.signal).collect(alloc)
}

// The next values after an action more.
fn write(
    nodes: &mut Nodes,
    registers: &[Range],
    made: &[Made],
    next: &mut Vec<u32>,
    action: &Action,
) -> Result<(), NoMemory>
    requires count { length next.old.items ≡ length registers.now }
    requires fits { spec.ActionFits (length registers.now) (length made.now) action.now }
    ensures count { length next.new.items ≡ length registers.now }
    ensures next { spec.IsTaken nodes.old nodes.new registers.now made.now next.old.items next.new.items
        action.now result }
{
    if let Deed::Write(register, value) = &action.deed {
        let place = *register as usize;
        let other = Made {
            node: next[place],
            width: registers[place].width,
        };
        let condition = made[action.condition as usize];
        let taken = choice(nodes, condition, made[*value as usize], other)?;
        next[place] = taken.node;
    }
    Ok(())
}

// The value, in the width of the other one, where the condition isn't 0, else the other one.
fn choice(nodes: &mut Nodes, condition: Made, value: Made, other: Made) -> Result<Made, NoMemory>
    ensures { calls.IsChoice nodes.old nodes.new condition value other result }
{
    let value = fitted(nodes, value, other.width)?;
    nodes.add(
        other.width,
        Operation::Choose {
            condition: condition.node,
            yes: value.node,
            no: other.node,
        },
    )
}

/// The register parts of the block, each the whole of its signal.
pub(crate) fn register_parts(
    alloc: Global,
    registers: &[Range],
    next: &[u32],
) -> Result<Vec<RegisterPart>, AllocError>
    requires { length next.now ≡ length registers.now }
    ensures { IfOk result (λ parts. parts.items ≡ spec.parts_of registers.now next.now) }
{
    let mut parts = Vec::new(alloc);
    for (number, range) in registers.iter().enumerate() {
        parts.push(RegisterPart {
            range: *range,
            block: 0,
            next: next[number],
            initial: 0,
        })?;
    }
    Ok(parts)
}
