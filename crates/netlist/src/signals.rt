//! Whether the scopes, the signals and the data inputs of a draft fit.

ghost use Rattle.std.specs.Prelude.{◌≡◌, ◌↔◌, ◌^◌, ◌<◌, length, IsTrue};
ghost use Rattle.netlist.specs.Fits as fits;

use crate::design::{Role, Scope, Signal};
use crate::operations::{holds, is_width};

/// Whether a number, where there is one, is below the count.
pub(crate) fn is_none_or_below(count: usize, number: Option<u32>) -> bool
    ensures { IsTrue result ↔ fits.IsNoneOrBelow count number }
{
    match number {
        Some(number) => (number as usize) < count,
        None => true,
    }
}

/// Whether the first scope stands in none, and each other one in a lower one.
pub(crate) fn scopes_fit(scopes: &[Scope]) -> bool
    ensures { IsTrue result ↔ fits.AllAt fits.ScopeFits scopes.now }
{
    for (number, scope) in scopes.iter().enumerate() {
        if !stands_right(number, scope.parent) {
            return false;
        }
    }
    true
}

// Whether a scope of this number may stand there.
fn stands_right(number: usize, parent: Option<u32>) -> bool
    ensures { IsTrue result ↔ fits.StandsRight number parent }
{
    match parent {
        Some(parent) => (parent as usize) < number,
        None => number == 0,
    }
}

/// Whether each signal has a scope that is there, a width, a role and kept bits that fit.
pub(crate) fn signals_fit(scopes: &[Scope], inputs: &[u32], signals: &[Signal]) -> bool
    ensures { IsTrue result ↔ fits.AllAt (fits.SignalFits (length scopes.now) inputs.now) signals.now }
{
    for (number, signal) in signals.iter().enumerate() {
        if !signal_fits(scopes, inputs, number, signal) {
            return false;
        }
    }
    true
}

// Whether the signal of this number fits.
fn signal_fits(scopes: &[Scope], inputs: &[u32], number: usize, signal: &Signal) -> bool
    ensures { IsTrue result ↔ fits.SignalFits (length scopes.now) inputs.now number signal.now }
{
    is_none_or_below(scopes.len(), signal.scope)
        && is_width(signal.width)
        && role_fits(inputs, number, signal.width, signal.role)
        && holds(signal.width, signal.kept)
}

// Whether a signal of this number and width may have this role.
fn role_fits(inputs: &[u32], number: usize, width: u32, role: Role) -> bool
    ensures { IsTrue result ↔ fits.RoleFits inputs.now number width role }
{
    match role {
        Role::Clock => width == 1,
        Role::Input(input) => is_at(inputs, input, number),
        Role::Inner => true,
    }
}

// Whether the signal stands in the list of data inputs at this place.
fn is_at(inputs: &[u32], input: u32, number: usize) -> bool
    ensures { IsTrue result ↔ fits.IsAt inputs.now input number }
{
    match inputs.get(input as usize) {
        Some(signal) => *signal as usize == number,
        None => false,
    }
}

/// Whether each data input is a signal that has its role.
pub(crate) fn inputs_fit(signals: &[Signal], inputs: &[u32]) -> bool
    ensures { IsTrue result ↔ fits.AllAt (fits.InputFits signals.now) inputs.now }
{
    for (number, signal) in inputs.iter().enumerate() {
        if !input_fits(signals, number, *signal) {
            return false;
        }
    }
    true
}

// Whether the signal is there and has the role of this data input.
fn input_fits(signals: &[Signal], number: usize, signal: u32) -> bool
    ensures { IsTrue result ↔ fits.InputFits signals.now number signal }
{
    match signals.get(signal as usize) {
        Some(signal) => is_input(signal.role, number),
        None => false,
    }
}

// Whether the role is that of the data input of this number.
fn is_input(role: Role, number: usize) -> bool
    ensures { IsTrue result ↔ fits.IsInput role number }
{
    match role {
        Role::Input(input) => input as usize == number,
        Role::Clock | Role::Inner => false,
    }
}
