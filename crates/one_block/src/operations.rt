//! Nodes that have the values of the old design's nodes.

ghost use Rattle.std.specs.Prelude.{◌≡◌, ◌==◌, ◌&&◌, ◌<◌, ◌^◌, [], ◌∷◌, ◌++◌, IfOk, OnOk, length};
ghost use Rattle.bit_ops.specs.Operators.{add, bit, holds};
ghost use Rattle.flat_ir.specs.FlatRun as run;
ghost use Rattle.netlist.specs.Fits.{IsWidth};
ghost use Rattle.one_block.specs.Calls.Nodes as calls;
ghost use Rattle.one_block.specs.Calls.Table as tables;

use crate::lists::append;
use crate::made::Made;
use crate::nodes::Nodes;
use crate::table::Table;
use bit_ops::{Binary, Unary};
use dt_core::fault::NoMemory;
use flat_ir::design as plain;
use netlist::node::Operation;
use std::alloc::Global;

/// For each node of the old design one that has its value. The nodes that are given read the signals of the table.
pub(crate) fn made_nodes(
    alloc: Global,
    nodes: &mut Nodes,
    table: &Table,
    plain: &[plain::Node],
) -> Result<Vec<Made>, NoMemory>
    requires there { tables.HasInputs table.now }
    requires fits { tables.AllFitIn table.now plain.now }
    ensures count { IfOk result (λ made. length made.items ≡ length plain.now) }
    ensures made { (p : run.Flat) → plain.now ≡ p.nodes → tables.LedBy p table.now nodes.old []
        → IfOk result (λ made. calls.MakesAll p nodes.old nodes.new made.items) }
{
    let mut made = Vec::new(alloc);
    for node in plain {
        let more = made_node(nodes, table, &made, node)?;
        append(&mut made, more)?;
    }
    Ok(made)
}

// The node that has the value of one more.
fn made_node(
    nodes: &mut Nodes,
    table: &Table,
    made: &[Made],
    node: &plain::Node,
) -> Result<Made, NoMemory>
    requires there { tables.HasInputs table.now }
    requires fits { tables.FitsIn table.now (length made.now) node.now }
    ensures { tables.IsNext table.now nodes.old nodes.new made.now node.now result }
{
    match *node {
        plain::Node::Constant(value) => nodes.add(width_of(value), Operation::Constant { value }),
        plain::Node::Input(input) => Ok(table.input(input)),
        plain::Node::Register(register) => Ok(table.register(register)),
        plain::Node::Sum(left, right, width) => {
            sum(nodes, made[left as usize], made[right as usize], width)
        }
        plain::Node::Equal(left, right) => {
            equality(nodes, made[left as usize], made[right as usize])
        }
        plain::Node::Not(of) => negation(nodes, made[of as usize]),
        plain::Node::And(left, right) => {
            conjunction(nodes, made[left as usize], made[right as usize])
        }
        plain::Node::Cut(of, width) => fitted(nodes, made[of as usize], width),
    }
}

// The number of bits of a constant, one at least.
fn width_of(value: u128) -> u32
    ensures width { IsWidth result }
    ensures below { value < 2 ^ result }
{
    if value == 0 { 1 } else { value.ilog2() + 1 }
}

/// A node at a width: extended by zeros, or cut.
pub(crate) fn fitted(nodes: &mut Nodes, of: Made, width: u32) -> Result<Made, NoMemory>
    ensures { calls.IsFitted nodes.old nodes.new of width result }
{
    if of.width < width {
        nodes.add(
            width,
            Operation::Extend {
                signed: false,
                of: of.node,
            },
        )
    } else if width < of.width {
        nodes.add(width, Operation::Cut { of: of.node })
    } else {
        Ok(of)
    }
}

// The sum of two nodes at a width.
fn sum(nodes: &mut Nodes, left: Made, right: Made, width: u32) -> Result<Made, NoMemory>
    ensures { IsWidth width → calls.IsOfTwo nodes.old nodes.new left right (add width) result }
{
    let left = fitted(nodes, left, width)?;
    let right = fitted(nodes, right, width)?;
    binary(nodes, Binary::Add, left, right, width)
}

// Whether two nodes are equal: both at the greater width.
fn equality(nodes: &mut Nodes, left: Made, right: Made) -> Result<Made, NoMemory>
    ensures { calls.IsOfTwo nodes.old nodes.new left right (λ a b. bit (a == b)) result }
{
    let width = left.width.max(right.width);
    let left = fitted(nodes, left, width)?;
    let right = fitted(nodes, right, width)?;
    binary(nodes, Binary::Eq, left, right, 1)
}

// Whether a node is 0.
fn negation(nodes: &mut Nodes, of: Made) -> Result<Made, NoMemory>
    ensures { calls.IsOfOne nodes.old nodes.new of (λ v. bit (v == 0)) result }
{
    nodes.add(
        1,
        Operation::Unary {
            operator: Unary::LogicNot,
            of: of.node,
        },
    )
}

// Whether neither of two nodes is 0.
fn conjunction(nodes: &mut Nodes, left: Made, right: Made) -> Result<Made, NoMemory>
    ensures { calls.IsOfTwo nodes.old nodes.new left right (λ a b. bit (holds a && holds b)) result }
{
    binary(nodes, Binary::LogicAnd, left, right, 1)
}

// An unsigned operator on two nodes.
fn binary(
    nodes: &mut Nodes,
    operator: Binary,
    left: Made,
    right: Made,
    width: u32,
) -> Result<Made, NoMemory>
    ensures node { IfOk result (λ m. m ≡ record { node = length nodes.old; width = width }) }
    ensures added { OnOk result (nodes.new ≡ nodes.old ++ calls.binary width operator left.node right.node ∷ []) }
{
    nodes.add(
        width,
        Operation::Binary {
            operator,
            signed: false,
            left: left.node,
            right: right.node,
        },
    )
}
