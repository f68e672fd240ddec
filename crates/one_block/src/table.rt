//! The signals of the one scope, and which of them show data inputs and registers.

ghost use Rattle.std.specs.Prelude.{◌≡◌, ◌<◌, ◌^◌, ◌+◌, [], ◌∷◌, ◌++◌, IfOk, OnOk, length, map};
ghost use Rattle.one_block.specs.SameDesign as same;
ghost use Rattle.one_block.specs.Calls.Nodes as calls;

use crate::lists::append;
use crate::made::Made;
use crate::nodes::Nodes;
use dt_core::fault::NoMemory;
use dt_core::text::Text;
use flat_ir::design as plain;
use netlist::design::{Range, Role, Signal, SignalKind};
use netlist::node::Operation;
use std::alloc::{AllocError, Global};

/// The signals in order, the numbers of those that show data inputs, and the places of the registers: whole signals.
#[derive(Drop)]
pub(crate) struct Table {
    pub(crate) signals: Vec<Signal>,
    pub(crate) inputs: Vec<u32>,
    pub(crate) registers: Vec<Range>,
}

impl Table {
    /// The table of these signals.
    pub(crate) fn of(alloc: Global, signals: &[plain::Signal]) -> Result<Table, NoMemory>
        requires { length signals.now < 2 ^ 32 }
        ensures signals { IfOk result (λ t. t.signals.items ≡ map same.signal_of signals.now) }
        ensures inputs { IfOk result (λ t. t.inputs.items ≡ same.input_places 0 signals.now) }
        ensures registers { IfOk result (λ t. t.registers.items ≡ same.register_ranges 0 signals.now) }
    {
        let mut table = Table {
            signals: Vec::new(alloc),
            inputs: Vec::new(alloc),
            registers: Vec::new(alloc),
        };
        for (number, signal) in signals.iter().enumerate() {
            table.place(number as u32, signal.width, signal.role)?;
            table.add(alloc, signal)?;
        }
        Ok(table)
    }

    // Adds a signal.
    fn add(&mut self, alloc: Global, signal: &plain::Signal) -> Result<(), NoMemory>
        ensures signals { let old = self.old.signals.items in
            OnOk result (self.new.signals.items ≡ old ++ same.signal_of signal.now ∷ []) }
        ensures inputs { self.new.inputs ≡ self.old.inputs }
        ensures registers { self.new.registers ≡ self.old.registers }
    {
        let signal = Signal {
            scope: Some(0),
            name: Text::copied(alloc, signal.name.bytes())?,
            kind: kind_of(signal.kind),
            width: signal.width,
            role: role_of(signal.role),
            kept: 0,
        };
        append(&mut self.signals, signal)
    }

    // Keeps the place of a signal of this number, if it shows a data input or a register.
    fn place(&mut self, number: u32, width: u32, role: plain::Role) -> Result<(), AllocError>
        ensures signals { self.new.signals ≡ self.old.signals }
        ensures inputs { OnOk result (self.new.inputs.items ≡ self.old.inputs.items ++ same.input_place number role) }
        ensures registers { let old = self.old.registers.items in
            OnOk result (self.new.registers.items ≡ old ++ same.register_range number width role) }
    {
        match role {
            plain::Role::Clock => {}
            plain::Role::Input(_) => self.inputs.push(number)?,
            plain::Role::Register(_) => self.registers.push(Range {
                signal: number,
                low: 0,
                width,
            })?,
        }
        Ok(())
    }

    /// The node of a data input.
    pub(crate) fn input(&self, input: u32) -> Made
        requires input { input < length self.now.inputs.items }
        requires there { calls.AreBelow (length self.now.signals.items) self.now.inputs.items }
        ensures { result ≡ calls.input_node self.now.signals.items self.now.inputs.items input }
    {
        let signal = self.inputs[input as usize];
        Made {
            node: signal,
            width: self.signals[signal as usize].width,
        }
    }

    /// The node of a register.
    pub(crate) fn register(&self, register: u32) -> Made
        requires { register < length self.now.registers.items }
        ensures { result ≡ calls.register_node self.now.registers.items register }
    {
        let range = self.registers[register as usize];
        Made {
            node: range.signal,
            width: range.width,
        }
    }

    /// The nodes that read the signals: node k reads the whole of signal k.
    pub(crate) fn read(&self, alloc: Global) -> Result<Nodes, NoMemory>
        requires { length self.now.signals.items < 2 ^ 32 }
        ensures { IfOk result (λ n. n ≡ calls.reads_from 0 self.now.signals.items) }
    {
        let mut nodes = Nodes::new(alloc);
        for (number, signal) in self.signals.iter().enumerate() {
            let range = Range {
                signal: number as u32,
                low: 0,
                width: signal.width,
            };
            nodes.add(signal.width, Operation::Bits { range })?;
        }
        Ok(nodes)
    }
}

// What a signal was declared as.
fn kind_of(kind: plain::SignalKind) -> SignalKind
    ensures { result ≡ same.kind_of kind }
{
    match kind {
        plain::SignalKind::Wire => SignalKind::Wire,
        plain::SignalKind::Reg => SignalKind::Reg,
        plain::SignalKind::Integer => SignalKind::Integer,
    }
}

// What gives a signal its value.
fn role_of(role: plain::Role) -> Role
    ensures { result ≡ same.role_of role }
{
    match role {
        plain::Role::Clock => Role::Clock,
        plain::Role::Input(input) => Role::Input(input),
        plain::Role::Register(_) => Role::Inner,
    }
}
