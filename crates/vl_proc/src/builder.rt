//! The nodes and the actions of a design, as they are added.

ghost use Rattle.std.specs.Prelude.{◌≡◌, [], ◌∷◌, ◌++◌, IfOk, OnOk, length};

use crate::lists::append;
use dt_core::fault::NoMemory;
use flat_ir::design::{Action, Deed, Node};
use std::alloc::Global;
use std::marker::Model;

/// Nodes of expressions, of which there are 2^32 at most.
#[derive(Drop)]
pub struct Nodes {
    list: Vec<Node>,
}

impl Model for Nodes {
    ghost use Rattle.std.specs.Prelude.{List};
    ghost use Rattle.flat_ir.specs.declared.design.Node.{Node};

    ghost Value = { List Node };

    ghost view = { λ n. n.list.items };
}

impl Nodes {
    /// No nodes.
    pub fn new(alloc: Global) -> Nodes
        ensures { result ≡ [] }
    {
        Nodes {
            list: Vec::new(alloc),
        }
    }

    /// Adds a node, and gives its number. More nodes than can be numbered count as out of memory.
    pub fn add(&mut self, node: Node) -> Result<u32, NoMemory>
        ensures number { IfOk result (λ k. k ≡ length self.old) }
        ensures added { OnOk result (self.new ≡ self.old ++ node ∷ []) }
    {
        let count = self.list.len();
        if count > u32::MAX as usize {
            return Err(NoMemory);
        }
        append(&mut self.list, node)?;
        Ok(count as u32)
    }

    /// The list of the nodes.
    pub fn into_list(self) -> Vec<Node>
        ensures { result.items ≡ self }
    {
        self.list
    }
}

/// What a design computes and does, as far as it was lowered.
#[derive(Drop)]
pub struct Builder {
    pub nodes: Nodes,
    pub actions: Vec<Action>,
}

impl Builder {
    /// Adds an action.
    pub fn act(&mut self, condition: u32, deed: Deed) -> Result<(), NoMemory>
        ensures actions { OnOk result (self.new.actions.items ≡ self.old.actions.items ++ record { condition = condition; deed = deed } ∷ []) }
        ensures nodes { self.new.nodes ≡ self.old.nodes }
    {
        append(&mut self.actions, Action { condition, deed })
    }
}
