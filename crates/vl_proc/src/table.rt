//! The signals of a module's ports.

ghost use Rattle.std.specs.Prelude.{◌≡◌, ◌<◌, ◌≤◌, ◌+◌, [], ◌∷◌, ◌++◌, IfOk, OnOk, true, map, length};
ghost use Rattle.std.specs.List.{list_all};
ghost use Rattle.vl_tree.specs.View as view;
ghost use Rattle.vl_meaning.specs.Faults.{is_narrow};
ghost use Rattle.vl_meaning.specs.Objects as objects;
ghost use Rattle.vl_proc.specs.Ports.{IsTable, kind_of, own_width, role_of, signal_of};

use crate::lists::append;
use dt_core::fault::NoMemory;
use dt_core::text::Text;
use flat_ir::design::{Role, Signal, SignalKind};
use std::alloc::Global;
use vl_scope::scope::name_of;
use vl_tree::tree::Port;

/// The signals of ports in order, the number of data inputs among them, and the widths of the registers in bits.
#[derive(Drop)]
pub struct Table {
    pub signals: Vec<Signal>,
    pub inputs: u32,
    pub registers: Vec<u32>,
}

impl Table {
    /// The table of these ports, of which one is the clock.
    pub fn new(alloc: Global, ports: &[Port], clock: &[u8]) -> Result<Table, NoMemory>
        requires few { length ports.now ≤ 65535 }
        requires narrow { list_all is_narrow (map view.port ports.now) ≡ true }
        ensures { IfOk result (λ t. IsTable clock.now (map view.port ports.now) t.signals.items t.inputs t.registers.items) }
    {
        let mut table = Table {
            signals: Vec::new(alloc),
            inputs: 0,
            registers: Vec::new(alloc),
        };
        for port in ports {
            table.add(alloc, port, clock)?;
        }
        Ok(table)
    }

    // Adds the signal of one port more.
    fn add(&mut self, alloc: Global, port: &Port, clock: &[u8]) -> Result<(), NoMemory>
        requires few { self.old.inputs + length self.old.registers.items < 65535 }
        requires narrow { is_narrow (view.port port.now) ≡ true }
        ensures signals { OnOk result (self.new.signals.items ≡ self.old.signals.items ++ signal_of clock.now self.old.inputs (length self.old.registers.items) (view.port port.now) ∷ []) }
        ensures inputs { OnOk result (self.new.inputs ≡ self.old.inputs + length (objects.data_input clock.now (view.port port.now))) }
        ensures registers { OnOk result (self.new.registers.items ≡ self.old.registers.items ++ own_width (view.port port.now)) }
    {
        let name = Text::copied(alloc, name_of(port).bytes())?;
        let signal = Signal {
            name,
            kind: port_kind(port),
            width: port_width(port),
            role: self.count(port, clock)?,
        };
        append(&mut self.signals, signal)
    }

    // What a port shows; it is counted.
    fn count(&mut self, port: &Port, clock: &[u8]) -> Result<Role, NoMemory>
        requires few { self.old.inputs + length self.old.registers.items < 65535 }
        requires narrow { is_narrow (view.port port.now) ≡ true }
        ensures role { IfOk result (λ r. r ≡ role_of clock.now self.old.inputs (length self.old.registers.items) (view.port port.now)) }
        ensures signals { self.new.signals ≡ self.old.signals }
        ensures inputs { OnOk result (self.new.inputs ≡ self.old.inputs + length (objects.data_input clock.now (view.port port.now))) }
        ensures registers { OnOk result (self.new.registers.items ≡ self.old.registers.items ++ own_width (view.port port.now)) }
    {
        match port {
            Port::Input(name) => {
                if name.bytes() == clock {
                    return Ok(Role::Clock);
                }
                let input = self.inputs;
                self.inputs += 1;
                Ok(Role::Input(input))
            }
            Port::Output(_, _, _) => {
                let register = self.registers.len() as u32;
                append(&mut self.registers, port_width(port))?;
                Ok(Role::Register(register))
            }
        }
    }
}

// What a port was declared as.
fn port_kind(port: &Port) -> SignalKind
    ensures { result ≡ kind_of (view.port port.now) }
{
    match port {
        Port::Input(_) => SignalKind::Wire,
        Port::Output(_, _, _) => SignalKind::Reg,
    }
}

// The width of a port in bits.
fn port_width(port: &Port) -> u32
    requires { is_narrow (view.port port.now) ≡ true }
    ensures { result ≡ objects.port_width (view.port port.now) }
{
    match port {
        Port::Input(_) => 1,
        Port::Output(_, left, right) => distance(left.value, right.value) as u32 + 1,
    }
}

// How far two numbers are apart.
fn distance(left: u128, right: u128) -> u128
    ensures { result ≡ objects.distance left right }
{
    if left < right {
        right - left
    } else {
        left - right
    }
}
