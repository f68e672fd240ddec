//! The nodes of a design, as they are added.

ghost use Rattle.std.specs.Prelude.{◌≡◌, ◌<◌, ◌^◌, [], ◌∷◌, ◌++◌, IfOk, OnOk, length};
ghost use Rattle.one_block.specs.Calls.Nodes as calls;

use crate::made::Made;
use dt_core::fault::NoMemory;
use netlist::node::{Node, Operation};
use std::alloc::Global;
use std::marker::Model;

/// Nodes, of which there are fewer than 2^32.
#[derive(Drop)]
pub(crate) struct Nodes {
    list: Vec<Node>,
}

impl Model for Nodes {
    ghost use Rattle.std.specs.Prelude.{List, length, ◌<◌, ◌^◌};
    ghost use Rattle.netlist.specs.declared.node.Node.{Node};

    ghost Value = { List Node };

    ghost view = { λ n. n.list.items };

    ghost invariant = { λ n. length n.list.items < 2 ^ 32 };
}

impl Nodes {
    /// No nodes.
    pub(crate) fn new(alloc: Global) -> Nodes
        ensures { result ≡ [] }
    {
        Nodes {
            list: Vec::new(alloc),
        }
    }

    /// Adds a node. More nodes than can be numbered count as out of memory.
    pub(crate) fn add(&mut self, width: u32, operation: Operation) -> Result<Made, NoMemory>
        ensures node { IfOk result (λ m. m ≡ record { node = length self.old; width = width }) }
        ensures added { OnOk result (self.new ≡ self.old ++ record { width = width; operation = operation } ∷ []) }
    {
        let count = self.list.len();
        if count >= u32::MAX as usize {
            return Err(NoMemory);
        }
        match self.list.push(Node { width, operation }) {
            Ok(()) => Ok(Made {
                node: count as u32,
                width,
            }),
            Err(_) => Err(NoMemory),
        }
    }

    /// The list of the nodes.
    pub(crate) fn into_list(self) -> Vec<Node>
        ensures nodes { result.items ≡ self }
        ensures few { length result.items < 2 ^ 32 }
    {
        self.list
    }
}
