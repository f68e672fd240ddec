//! The nodes of a design, as they are added.

ghost use Rattle.std.specs.Prelude.{◌≡◌, ◌<◌, ◌≤◌, ◌^◌, ◌+◌, true, [], ◌∷◌, ◌++◌, IfOk, OnOk, length};
ghost use Rattle.bit_ops.specs.Applied as applied;
ghost use Rattle.bit_ops.specs.Operators as ops;
ghost use Rattle.netlist.specs.Fits.{IsWidth};
ghost use Rattle.vl_nodes.specs.Sense.{chosen, inserted, kept, selected};
ghost use Rattle.vl_nodes.specs.Calls as calls;

use crate::made::Made;
use crate::widths::{binary_width, unary_width};
use bit_ops::{Binary, Unary};
use dt_core::fault::NoMemory;
use dt_core::limits::MAX_WIDTH;
use netlist::design::{Index, Range};
use netlist::node::{Node, Operation};
use std::alloc::Global;
use std::marker::Model;

/// Nodes, of which there are fewer than 2^32. Each call that adds one answers out of memory where there would be more.
#[derive(Drop)]
pub struct Nodes {
    list: Vec<Node>,
}

impl Model for Nodes {
    ghost use Rattle.std.specs.Prelude.{List, length, ◌<◌, ◌^◌};
    ghost use Rattle.netlist.specs.declared.node.Node.{Node};

    ghost Value = { List Node };

    ghost view = { λ n. n.list.items };

    ghost invariant = { λ n. length n.list.items < 2 ^ 32 };
}

impl Nodes {
    /// No nodes.
    pub fn new(alloc: Global) -> Nodes
        ensures { result ≡ [] }
    {
        Nodes {
            list: Vec::new(alloc),
        }
    }

    /// The list of the nodes.
    pub fn into_list(self) -> Vec<Node>
        ensures nodes { result.items ≡ self }
        ensures few { length result.items < 2 ^ 32 }
    {
        self.list
    }

    // Adds a node.
    fn add(&mut self, width: u32, operation: Operation) -> Result<Made, NoMemory>
        ensures node { IfOk result (λ m. m ≡ record { node = length self.old; width = width }) }
        ensures added { OnOk result (self.new ≡ self.old ++ record { width = width; operation = operation } ∷ []) }
    {
        let count = self.list.len();
        if count >= u32::MAX as usize {
            return Err(NoMemory);
        }
        match self.list.push(Node { width, operation }) {
            Ok(()) => Ok(Made {
                node: count as u32,
                width,
            }),
            Err(_) => Err(NoMemory),
        }
    }

    /// A number.
    pub fn number(&mut self, width: u32, value: u128) -> Result<Made, NoMemory>
        requires wide { IsWidth width }
        requires below { value < 2 ^ width }
        ensures width { IfOk result (λ m. m.width ≡ width) }
        ensures made { calls.IsNumber self.old self.new width value result }
    {
        self.add(width, Operation::Constant { value })
    }

    /// Bits of a signal.
    pub fn bits(&mut self, range: Range) -> Result<Made, NoMemory>
        requires { IsWidth range.width }
        ensures width { IfOk result (λ m. m.width ≡ range.width) }
        ensures made { calls.IsBits self.old self.new range result }
    {
        self.add(range.width, Operation::Bits { range })
    }

    /// The word of a memory, whose words have this width, at an index that is signed or not; 0 where it has none there.
    pub fn word(
        &mut self,
        memory: u32,
        width: u32,
        index: Made,
        signed: bool,
    ) -> Result<Made, NoMemory>
        requires { IsWidth width }
        ensures width { IfOk result (λ m. m.width ≡ width) }
        ensures made { calls.IsWord self.old self.new memory width index signed result }
    {
        let index = Index {
            node: index.node,
            signed,
        };
        self.add(width, Operation::Word { memory, index })
    }

    /// An operator on one node.
    pub fn unary(&mut self, operator: Unary, of: Made) -> Result<Made, NoMemory>
        ensures width { IfOk result (λ m. m.width ≡ applied.unary_width operator of.width) }
        ensures made { let f = applied.unary operator of.width in
            calls.IsOfOne self.old self.new of (applied.unary_width operator of.width) f result }
    {
        let width = unary_width(operator, of.width);
        self.add(
            width,
            Operation::Unary {
                operator,
                of: of.node,
            },
        )
    }

    /// An operator on two nodes, signed or not. But for shifts and logical operators both have one width.
    pub fn binary(
        &mut self,
        operator: Binary,
        signed: bool,
        left: Made,
        right: Made,
    ) -> Result<Made, NoMemory>
        requires { applied.takes_one_width operator ≡ true → left.width ≡ right.width }
        ensures width { IfOk result (λ m. m.width ≡ applied.binary_width operator left.width) }
        ensures made { let f = applied.binary operator signed left.width in
            calls.IsOfTwo self.old self.new left right (applied.binary_width operator left.width) f result }
    {
        let width = binary_width(operator, left.width);
        self.add(
            width,
            Operation::Binary {
                operator,
                signed,
                left: left.node,
                right: right.node,
            },
        )
    }

    /// The node at a width that isn't less, by its sign or by zeros.
    pub fn extend(&mut self, of: Made, signed: bool, width: u32) -> Result<Made, NoMemory>
        requires less { of.width ≤ width }
        requires wide { width ≤ MAX_WIDTH }
        ensures width { IfOk result (λ m. m.width ≡ width) }
        ensures made { calls.IsOfOne self.old self.new of width (ops.extend signed of.width width) result }
    {
        self.add(
            width,
            Operation::Extend {
                signed,
                of: of.node,
            },
        )
    }

    /// The low bits of the node.
    pub fn cut(&mut self, of: Made, width: u32) -> Result<Made, NoMemory>
        requires some { 1 ≤ width }
        requires less { width ≤ of.width }
        ensures width { IfOk result (λ m. m.width ≡ width) }
        ensures made { calls.IsOfOne self.old self.new of width (ops.low width) result }
    {
        self.add(width, Operation::Cut { of: of.node })
    }

    /// So many bits of the node, from a place upward that a node tells, signed or not; 0 at places outside.
    pub fn select(
        &mut self,
        of: Made,
        place: Made,
        signed: bool,
        width: u32,
    ) -> Result<Made, NoMemory>
        requires { IsWidth width }
        ensures width { IfOk result (λ m. m.width ≡ width) }
        ensures made { let f = selected signed place.width width in
            calls.IsOfTwo self.old self.new of place width f result }
    {
        let place = Index {
            node: place.node,
            signed,
        };
        self.add(width, Operation::Select { of: of.node, place })
    }

    /// The node `of` with the bits of another from a place upward; what falls outside is lost.
    pub fn insert(
        &mut self,
        of: Made,
        place: Made,
        signed: bool,
        part: Made,
    ) -> Result<Made, NoMemory>
        ensures width { IfOk result (λ m. m.width ≡ of.width) }
        ensures made { let f = inserted of.width signed place.width part.width in
            calls.IsOfThree self.old self.new of place part of.width f result }
    {
        let place = Index {
            node: place.node,
            signed,
        };
        self.add(
            of.width,
            Operation::Insert {
                of: of.node,
                place,
                part: part.node,
            },
        )
    }

    /// The left node, and to the right of it the right one.
    pub fn concat(&mut self, left: Made, right: Made) -> Result<Made, NoMemory>
        requires { left.width + right.width ≤ MAX_WIDTH }
        ensures width { IfOk result (λ m. m.width ≡ left.width + right.width) }
        ensures made { calls.IsOfTwo self.old self.new left right (left.width + right.width) (ops.concat right.width) result }
    {
        self.add(
            left.width + right.width,
            Operation::Concat {
                left: left.node,
                right: right.node,
            },
        )
    }

    /// The node `yes` where the condition isn't 0, else `no`.
    pub fn choose(&mut self, condition: Made, yes: Made, no: Made) -> Result<Made, NoMemory>
        requires { yes.width ≡ no.width }
        ensures width { IfOk result (λ m. m.width ≡ yes.width) }
        ensures made { calls.IsOfThree self.old self.new condition yes no yes.width chosen result }
    {
        self.add(
            yes.width,
            Operation::Choose {
                condition: condition.node,
                yes: yes.node,
                no: no.node,
            },
        )
    }

    /// The node `of`; `also` is read, and changes nothing.
    pub fn keep(&mut self, of: Made, also: Made) -> Result<Made, NoMemory>
        ensures width { IfOk result (λ m. m.width ≡ of.width) }
        ensures made { calls.IsOfTwo self.old self.new of also of.width kept result }
    {
        self.add(
            of.width,
            Operation::Keep {
                of: of.node,
                also: also.node,
            },
        )
    }
}
