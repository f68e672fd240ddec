//! A design as a program.

ghost use Rattle.std.specs.Prelude.{◌≡◌, IfOk};

use crate::layout::Given;
use std::marker::Model;
use step_program::program::Program;
use step_program::step::Slot;

/// The program of a design: its given slots are those of the register parts, in their order, then those of the data
/// inputs. Once it has run, the slot of each node holds the node's value.
#[derive(Drop)]
pub struct Compiled {
    pub(crate) program: Program,
    pub(crate) given: Given,
    pub(crate) nodes: Vec<Slot>,
}

impl Model for Compiled {
    ghost use Rattle.net_compile.specs.Compiles.{Machine};
    ghost use Rattle.net_compile.specs.Pieces.{front_of};

    ghost Value = { Machine };

    ghost view = { λ c. record { plan = c.program; front = front_of c.given; nodes = c.nodes.items } };
}

impl Compiled {
    /// The program.
    pub fn program(&self) -> &Program
        ensures { result.now ≡ self.now.plan }
    {
        &self.program
    }

    /// The given slots: one for each register part, then one for each data input.
    pub fn given(&self) -> &[Slot]
        ensures { result.now ≡ self.now.front.slots }
    {
        &self.given.slots
    }

    /// The slot of each node.
    pub fn nodes(&self) -> &[Slot]
        ensures { result.now ≡ self.now.nodes }
    {
        &self.nodes
    }
}
