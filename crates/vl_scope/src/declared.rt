//! The faults of declarations: how many there are, ranges of bits, names that stand twice, the clock.

ghost use Rattle.std.specs.Prelude.{◌≡◌, ◌^◌, map, length, nat_le, ◌*◌, ◌&&◌, if◌then◌else◌, IsTrue};
ghost use Rattle.std.specs.List.{list_all};
ghost use Rattle.vl_tree.specs.Token.{literal_of};
ghost use Rattle.vl_tree.specs.View as view;
ghost use Rattle.vl_meaning.specs.Objects.{data_input, data_inputs_of};
ghost use Rattle.vl_meaning.specs.Faults as faults;

use crate::scope::Scope;
use dt_core::limits::{MAX_BOUND, MAX_INPUTS, MAX_SIGNALS, MAX_WIDTH};
use dt_core::text::Text;
use vl_tree::token::Literal;
use vl_tree::tree::{Module, Port};

/// Whether a module has no more signals and data inputs than may be.
pub fn are_few(top: &Module) -> bool
    ensures { result ≡ faults.are_few (view.module_of top.now) }
{
    top.ports.len() <= MAX_SIGNALS as usize
        && count_data_inputs(&top.clock, &top.ports) <= MAX_INPUTS as usize
}

// How many inputs there are, the clock aside.
fn count_data_inputs(clock: &Text, ports: &[Port]) -> usize
    ensures { result ≡ length (data_inputs_of clock.now (map view.port ports.now)) }
{
    let mut count = 0;
    for port in ports {
        if is_data_input(clock, port) {
            count += 1;
        }
    }
    count
}

fn is_data_input(clock: &Text, port: &Port) -> bool
    ensures { (if result then 1 else 0) ≡ length (data_input clock.now (view.port port.now)) }
{
    match port {
        Port::Input(name) => name != clock,
        Port::Output(_, _, _) => false,
    }
}

/// Whether the declarations of a module have no fault.
pub fn are_declared(top: &Module, scope: &Scope<'_>) -> bool
    requires few { IsTrue (faults.are_few (view.module_of top.now)) }
    requires scope { scope.now ≡ map view.port top.now.ports.items }
    ensures { result ≡ faults.are_declared (view.module_of top.now) }
{
    have_ranges(&top.ports)
        && are_narrow(&top.ports)
        && scope.are_distinct()
        && is_clock(top, scope)
}

fn have_ranges(ports: &[Port]) -> bool
    ensures { result ≡ list_all faults.has_range (map view.port ports.now) }
{
    for port in ports {
        if !has_range(port) {
            return false;
        }
    }
    true
}

/// Whether the bounds of a port's range, if it has one, are ones that a range may have.
pub fn has_range(port: &Port) -> bool
    ensures { result ≡ faults.has_range (view.port port.now) }
{
    match port {
        Port::Input(_) => true,
        Port::Output(_, left, right) => is_bound(left) && is_bound(right),
    }
}

// A bound is from 0 to 65,535, as the whole number that the literal stands for by its sign.
fn is_bound(literal: &Literal) -> bool
    ensures { result ≡ faults.is_bound (literal_of literal.now) }
{
    !is_negative(literal) && literal.value <= u128::from(MAX_BOUND)
}

// A signed number whose top bit is set stands for itself less 2^width.
fn is_negative(literal: &Literal) -> bool
    ensures { result ≡ (literal.now.signed && nat_le (2 ^ literal.now.width) (2 * literal.now.value)) }
{
    literal.signed && 1u128 << (literal.width - 1) <= literal.value
}

fn are_narrow(ports: &[Port]) -> bool
    ensures { result ≡ list_all faults.is_narrow (map view.port ports.now) }
{
    for port in ports {
        if !is_narrow(port) {
            return false;
        }
    }
    true
}

/// Whether a port has no more bits than a vector may have.
pub fn is_narrow(port: &Port) -> bool
    ensures { result ≡ faults.is_narrow (view.port port.now) }
{
    match port {
        Port::Input(_) => true,
        Port::Output(_, left, right) => left.value.abs_diff(right.value) < u128::from(MAX_WIDTH),
    }
}

/// Whether the clock of a module's block is one of its inputs.
pub fn is_clock(top: &Module, scope: &Scope<'_>) -> bool
    requires { scope.now ≡ map view.port top.now.ports.items }
    ensures { result ≡ faults.is_clock (view.module_of top.now) }
{
    match scope.port_of(&top.clock) {
        Some(Port::Input(_)) => true,
        Some(Port::Output(_, _, _)) => false,
        None => false,
    }
}
