//! The whole numbered design.

ghost use Rattle.std.specs.Prelude.{◌≡◌};
ghost use Rattle.flat_ir.specs.FlatRun.{IsWellFormed};
ghost use Rattle.flat_ir.specs.Settled.{SettlesOnce};

use crate::design::{Action, Node, Signal};
use dt_core::text::Text;
use std::marker::Model;

/// A numbered design, well-formed: the top's name, the signals in order of the text, the number of data inputs, the
/// widths of the registers in bits, the nodes, and what the clocked block does, in order of execution.
#[derive(Drop)]
pub struct Flat {
    name: Text,
    signals: Vec<Signal>,
    inputs: u32,
    registers: Vec<u32>,
    nodes: Vec<Node>,
    actions: Vec<Action>,
}

impl Model for Flat {
    ghost use Rattle.flat_ir.specs.FlatRun as run;

    ghost Value = { run.Flat };

    ghost view = { λ f. record { name = f.name; signals = f.signals.items; inputs = f.inputs; registers = f.registers.items; nodes = f.nodes.items; actions = f.actions.items } };

    ghost invariant = { λ f. run.IsWellFormed (record { name = f.name; signals = f.signals.items; inputs = f.inputs; registers = f.registers.items; nodes = f.nodes.items; actions = f.actions.items }) };
}

/// The parts of a numbered design, which may not fit together yet.
#[derive(Drop)]
pub struct FlatDraft {
    pub name: Text,
    pub signals: Vec<Signal>,
    pub inputs: u32,
    pub registers: Vec<u32>,
    pub nodes: Vec<Node>,
    pub actions: Vec<Action>,
}

impl FlatDraft {
    /// The design of these parts. It takes no memory.
    pub fn close(self) -> Flat
        requires { IsWellFormed (record { name = self.name; signals = self.signals.items; inputs = self.inputs; registers = self.registers.items; nodes = self.nodes.items; actions = self.actions.items }) }
        ensures { result ≡ record { name = self.name; signals = self.signals.items; inputs = self.inputs; registers = self.registers.items; nodes = self.nodes.items; actions = self.actions.items } }
    {
        Flat {
            name: self.name,
            signals: self.signals,
            inputs: self.inputs,
            registers: self.registers,
            nodes: self.nodes,
            actions: self.actions,
        }
    }
}

impl Flat {
    /// The top module's name.
    pub fn name(&self) -> &[u8]
        ensures { result.now ≡ self.now.name }
    {
        self.name.bytes()
    }

    /// The number of data inputs.
    pub fn input_count(&self) -> u32
        ensures { result ≡ self.now.inputs }
    {
        self.inputs
    }

    /// The widths of the registers in bits, in order of number.
    pub fn registers(&self) -> &[u32]
        ensures { result.now ≡ self.now.registers }
    {
        &self.registers
    }

    /// The signals, in order of the text.
    pub fn signals(&self) -> &[Signal]
        ensures signals { result.now ≡ self.now.signals }
        ensures fit { IsWellFormed self.now }
    {
        &self.signals
    }

    /// The nodes, each of which reads lower ones.
    pub fn nodes(&self) -> &[Node]
        ensures nodes { result.now ≡ self.now.nodes }
        ensures fit { IsWellFormed self.now }
    {
        &self.nodes
    }

    /// What the clocked block does, in order of execution.
    pub fn actions(&self) -> &[Action]
        ensures actions { result.now ≡ self.now.actions }
        ensures fit { IsWellFormed self.now }
    {
        &self.actions
    }
}

/// The values of the nodes in a cycle are the one list in which each node has its value over the others.
pub fn settled_law()
    ensures { SettlesOnce }
{}
