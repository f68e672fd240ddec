//! The values of nodes, as the slots of a program that has run hold them.

ghost use Rattle.std.specs.Prelude.{◌≡◌, ◌<◌, length, slice_index};
ghost use Rattle.bit_ops.specs.Operators as ops;
ghost use Rattle.netlist.specs.Values.{width_at, index_at};
ghost use Rattle.step_program.specs.Running.{whole_of};

use dt_core::bits::Bits;
use netlist::design::Index;
use netlist::flat::Flat;
use std::marker::Model;
use step_program::rare::{Whole, read};
use step_program::step::Slot;
use step_program::words::SlotValues;

/// A design, the slot of each of its nodes, and what stands in the slots.
#[derive(Drop)]
pub struct Nodes<'a> {
    pub flat: &'a Flat,
    pub slots: &'a [Slot],
    pub values: &'a SlotValues,
}

impl<'a> Model for Nodes<'a> {
    ghost use Rattle.held_state.specs.Writes.{NodeValues, values_of, AreValues};

    ghost Value = { NodeValues };

    ghost view = { values_of };

    ghost invariant = { AreValues };
}

impl<'a> Nodes<'a> {
    /// The value of a node.
    pub fn number(&self, node: u32) -> u128
        requires { node < length self.now.flat.nodes }
        ensures { result ≡ slice_index self.now.numbers node }
    {
        self.values.value(self.slots[node as usize])
    }

    /// The bits of a node.
    pub fn bits(&self, node: u32) -> Bits
        requires { node < length self.now.flat.nodes }
        ensures width { result.width ≡ width_at self.now.flat.nodes node }
        ensures value { result.value ≡ slice_index self.now.numbers node }
    {
        let width = self.flat.nodes()[node as usize].width;
        Bits::of(width, self.number(node))
    }

    /// Whether a node isn't 0.
    pub fn holds(&self, node: u32) -> bool
        requires { node < length self.now.flat.nodes }
        ensures { result ≡ ops.holds (slice_index self.now.numbers node) }
    {
        self.number(node) != 0
    }

    /// The whole number that an index stands for.
    pub fn index(&self, index: Index) -> Whole
        requires { index.node < length self.now.flat.nodes }
        ensures { whole_of result ≡ index_at self.now.flat.nodes self.now.numbers index }
    {
        if index.signed {
            read(self.bits(index.node), true)
        } else {
            Whole::Up(self.number(index.node))
        }
    }
}
