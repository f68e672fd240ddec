//! A signal's value, put together from its parts.

ghost use Rattle.std.specs.Prelude.{◌≡◌, ◌<◌, ◌^◌, length};
ghost use Rattle.std.specs.List.{All};
ghost use Rattle.netlist.specs.Fits.{IsWidth, DrivenFits, DrivenInOrder, RegistersInOrder};
ghost use Rattle.netlist.specs.Run.{role_value};
ghost use Rattle.step_program.specs.Plan.{held};
ghost use Rattle.held_state.specs.Slots.{numbers};
ghost use Rattle.held_state.specs.States.{RegistersFit};
ghost use Rattle.flat_sim.specs.Signals as bits;

use bit_ops::insert;
use dt_core::bits::Bits;
use dt_core::limits::MAX_WIDTH;
use held_state::nodes::Nodes;
use netlist::design::{DrivenPart, Range, RegisterPart, Role, Signal};
use step_program::step::Slot;
use step_program::words::SlotValues;

/// The places from one up to another.
#[derive(Clone, Copy)]
pub(crate) struct Span {
    pub(crate) from: usize,
    pub(crate) to: usize,
}

// The places of the driven parts of a signal.
fn driven_span(parts: &[DrivenPart], signal: u32) -> Span
    requires { DrivenInOrder parts.now }
    ensures { bits.IsSpan (λ p. p.range.signal) parts.now signal result }
{
    let from = parts.partition_point(|part| part.range.signal < signal);
    let to = parts.partition_point(|part| part.range.signal <= signal);
    Span { from, to }
}

// The places of the register parts of a signal.
fn register_span(parts: &[RegisterPart], signal: u32) -> Span
    requires { RegistersInOrder parts.now }
    ensures { bits.IsSpan (λ p. p.range.signal) parts.now signal result }
{
    let from = parts.partition_point(|part| part.range.signal < signal);
    let to = parts.partition_point(|part| part.range.signal <= signal);
    Span { from, to }
}

// The value with other bits in a range, where it is one of the signal.
fn with_bits(value: Bits, signal: u32, range: Range, number: u128) -> Bits
    requires { bits.FitsRange range number }
    ensures width { result.width ≡ value.width }
    ensures value { result.value ≡ bits.with_bits signal value.width range number value.value }
{
    if range.signal == signal {
        insert(value, i64::from(range.low), Bits::of(range.width, number))
    } else {
        value
    }
}

/// The value of a signal where no part gives it bits. The slots are those of the data inputs.
pub(crate) fn own_value(signal: &Signal, inputs: &[Slot], values: &SlotValues) -> Bits
    requires width { IsWidth signal.now.width }
    requires input { bits.IsInputOf (length inputs.now) signal.now.role }
    requires fits { role_value (numbers (held values.now) inputs.now) signal.now.kept signal.now.role
        < 2 ^ signal.now.width }
    ensures width { result.width ≡ signal.now.width }
    ensures value { result.value ≡ role_value (numbers (held values.now) inputs.now) signal.now.kept signal.now.role }
{
    match signal.role {
        Role::Clock => Bits::of(signal.width, 0),
        Role::Input(number) => Bits::of(signal.width, values.value(inputs[number as usize])),
        Role::Inner => Bits::of(signal.width, signal.kept),
    }
}

/// The value with the numbers of the register parts of a signal, each in its slot.
pub(crate) fn with_registers(
    value: Bits,
    signal: u32,
    parts: &[RegisterPart],
    given: &[Slot],
    values: &SlotValues,
) -> Bits
    requires slots { length given.now ≡ length parts.now }
    requires fit { RegistersFit parts.now (numbers (held values.now) given.now) }
    requires wide { All (λ p. IsWidth p.range.width) parts.now }
    requires order { RegistersInOrder parts.now }
    ensures width { result.width ≡ value.width }
    ensures value { result.value
        ≡ bits.with_registers signal value.width parts.now (numbers (held values.now) given.now) value.value }
{
    let span = register_span(parts, signal);
    let mut value = value;
    for k in span.from..span.to {
        value = with_bits(value, signal, parts[k].range, values.value(given[k]));
    }
    value
}

/// The value with the numbers of the driven parts of a signal, those of their nodes.
pub(crate) fn with_driven(value: Bits, signal: u32, parts: &[DrivenPart], nodes: &Nodes) -> Bits
    requires parts { All (DrivenFits nodes.now.flat.signals nodes.now.flat.nodes) parts.now }
    requires order { DrivenInOrder parts.now }
    ensures width { result.width ≡ value.width }
    ensures value { result.value
        ≡ bits.with_driven signal value.width parts.now nodes.now.numbers value.value }
{
    let span = driven_span(parts, signal);
    let mut value = value;
    for k in span.from..span.to {
        let part = parts[k];
        value = with_bits(value, signal, part.range, nodes.bits(part.node).value());
    }
    value
}
