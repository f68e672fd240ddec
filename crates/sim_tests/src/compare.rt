//! A design that runs beside the plain reading of its run.

ghost use Rattle.std.specs.Prelude.{◌≡◌, ◌<◌, ◌^◌, length, IsTrue, IsSome};
ghost use Rattle.net_compile.specs.Cycle as cycle;

use crate::chance::Chance;
use crate::reading;
use dt_core::bits::Bits;
use flat_sim::sim::Sim;
use flat_sim::state::FlatState;
use flat_sim::steps::Steps;
use message_text::telling::Fired;
use netlist::flat::Flat;
use std::alloc::Global;
use std::process::Abort;
use std::sync::ledger::Ledger;
use std::test::Fail;

// Whether a number fits the signal of a data input.
fn input_fits(flat: &Flat, signal: u32, value: u128) -> bool
    ensures { IsTrue result → value < 2 ^ cycle.signal_width flat.now.signals signal }
{
    match flat.signals().get(signal as usize) {
        Some(signal) => Bits::new(signal.width, value).is_some(),
        None => false,
    }
}

/// Whether the row has a number for each data input, which fits it.
pub fn row_fits(flat: &Flat, row: &[u128]) -> bool
    ensures { IsTrue result → (length row.now ≡ length flat.now.inputs) × cycle.RowFits flat.now row.now }
{
    let inputs = flat.inputs();
    if row.len() != inputs.len() {
        return false;
    }
    for k in 0..row.len() {
        if !input_fits(flat, inputs[k], row[k]) {
            return false;
        }
    }
    true
}

/// A row by chance.
pub fn row(alloc: Global, flat: &Flat, chance: &mut Chance) -> Result<Vec<u128>, Fail> {
    let mut row = Vec::new(alloc);
    for input in flat.inputs() {
        let width = flat
            .signals()
            .get(*input as usize)
            .map_or(1, |signal| signal.width);
        row.push(chance.bits(width))?;
    }
    Ok(row)
}

/// What a cycle came to: the values of the signals, what fired, and the next state.
#[derive(Drop)]
pub struct Outcome {
    pub signals: Vec<u128>,
    pub fired: Vec<Fired>,
    pub next: FlatState,
}

// Each signal has its width and its value.
fn same_values<R: Abort>(rt: &R, sim: &Sim<'_>, signals: &[u128])
    requires { IsSome sim.now.values }
{
    assert_eq!(rt; sim.flat().signals().len(), signals.len());
    for number in 0..sim.flat().signal_count() {
        let value = sim.value(number);
        let width = sim.flat().signals()[number as usize].width;
        assert_eq!(rt; value.width(), width, "signal {number}");
        assert_eq!(rt;
            Some(&value.value()),
            signals.get(number as usize),
            "signal {number}"
        );
    }
}

// The assertions fire with their messages.
fn same_fired<R: Abort>(rt: &R, alloc: Global, sim: &Sim<'_>, fired: &[Fired]) -> Result<(), Fail>
    requires { IsSome sim.now.values }
{
    assert_eq!(rt; sim.fires(), !fired.is_empty());
    let own = sim.fired(alloc)?;
    assert_eq!(rt; own.len(), fired.len());
    for (one, other) in own.iter().zip(fired.iter()) {
        assert_eq!(rt; one.stop, other.stop);
        assert_eq!(rt; one.message.bytes(), other.message.bytes());
    }
    Ok(())
}

/// The simulator stands in this state.
pub fn same_state<R: Abort>(
    rt: &R,
    alloc: Global,
    sim: &Sim<'_>,
    state: &FlatState,
) -> Result<(), Fail> {
    let own = sim.state(alloc)?;
    assert_eq!(rt; own.registers, state.registers);
    assert_eq!(rt; own.memories, state.memories);
    Ok(())
}

/// Runs a cycle in this state, compares it with its reading, and goes to the next one.
pub fn run_cycle<R: Abort, L: Ledger>(
    rt: &R,
    alloc: Global,
    sim: &mut Sim<'_>,
    state: &FlatState,
    row: &[u128],
    steps: &mut Steps<L>,
) -> Result<Outcome, Fail> {
    let flat = sim.flat();
    same_state(rt, alloc, sim, state)?;
    if !row_fits(flat, row) || sim.cycle() == u64::MAX {
        return Err("the row doesn't fit".into());
    }
    sim.settle(row, steps);
    let (values, nodes) = reading::settled(alloc, flat, state, row)?;
    let fired = reading::fired(alloc, flat, &nodes)?;
    same_values(rt, sim, &values.signals);
    same_fired(rt, alloc, sim, &fired)?;
    sim.advance();
    let next = reading::next(alloc, flat, state, &nodes)?;
    same_state(rt, alloc, sim, &next)?;
    let signals = values.signals;
    Ok(Outcome {
        signals,
        fired,
        next,
    })
}
