//! Nodes of expressions.

ghost use Rattle.std.specs.Prelude.{◌≡◌};
ghost use Rattle.netlist.specs.Graph as graph;

use crate::design::{Index, Range};
use bit_ops::{Binary, Unary};

/// What a node's value is. A node is named by its number, and reads nodes of lower numbers alone.
#[derive(Clone, Copy, Debug, PartialEq, Eq)]
pub enum Operation {
    /// A number below 2^width.
    Constant {
        value: u128,
    },
    /// Bits of a signal.
    Bits {
        range: Range,
    },
    /// The word of a memory at an index; 0 where it has none there.
    Word {
        memory: u32,
        index: Index,
    },
    /// An operator of `bit_ops` on one node.
    Unary {
        operator: Unary,
        of: u32,
    },
    /// An operator of `bit_ops` on two nodes, signed or not.
    Binary {
        operator: Binary,
        signed: bool,
        left: u32,
        right: u32,
    },
    /// The node at a width that isn't less, by its sign or by zeros.
    Extend {
        signed: bool,
        of: u32,
    },
    /// The low bits of the node.
    Cut {
        of: u32,
    },
    /// So many bits of the node as the width says, from a place upward; 0 at places outside.
    Select {
        of: u32,
        place: Index,
    },
    /// The node `of` with the bits of another from a place upward; what falls outside is lost.
    Insert {
        of: u32,
        place: Index,
        part: u32,
    },
    /// The left node, and to the right of it the right one.
    Concat {
        left: u32,
        right: u32,
    },
    /// The node `yes` where the condition isn't 0, else `no`.
    Choose {
        condition: u32,
        yes: u32,
        no: u32,
    },
    /// The node `of`; `also` is read, and changes nothing.
    Keep {
        of: u32,
        also: u32,
    },
}

impl Operation {
    /// The lower nodes that it reads, three at most.
    pub fn operands(&self) -> [Option<u32>; 3]
        ensures { graph.somes result ≡ graph.operands self.now }
    {
        match *self {
            Operation::Constant { .. } | Operation::Bits { .. } => [None, None, None],
            Operation::Word { index, .. } => [Some(index.node), None, None],
            Operation::Unary { of, .. } | Operation::Extend { of, .. } | Operation::Cut { of } => {
                [Some(of), None, None]
            }
            Operation::Binary { left, right, .. } | Operation::Concat { left, right } => {
                [Some(left), Some(right), None]
            }
            Operation::Select { of, place } => [Some(of), Some(place.node), None],
            Operation::Keep { of, also } => [Some(of), Some(also), None],
            Operation::Insert { of, place, part } => [Some(of), Some(place.node), Some(part)],
            Operation::Choose { condition, yes, no } => [Some(condition), Some(yes), Some(no)],
        }
    }
}

/// A node: its width of 1 to `MAX_WIDTH` bits, and how its value, below 2^width, comes about.
#[derive(Clone, Copy, Debug, PartialEq, Eq)]
pub struct Node {
    pub width: u32,
    pub operation: Operation,
}
