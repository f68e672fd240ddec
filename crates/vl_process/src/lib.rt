//! What a design does: what drives its bits, what a cycle settles on, what its blocks do, its run, what it shows; every fault of
//! phases 6 to 9 of these; and when a numbered design stands for it. Definitions on plain trees, and a law.
//!
//! Below: `vl_design` (scopes, objects, names in sight), `vl_value` (what expressions are worth), `message_format` (texts of messages),
//! `netlist` and `design_names` (the numbered design and its names). Above: what makes the numbered design of a source.
//! In order of reading: `specs/Texts` (paths as texts), `Connections`, `Clocks`, `Statement` (what a statement does), `Aims` (which
//! bits it may write), `Processes` (drivers and blocks of a design), `Settling`, `Run`, `Shown`, `Parts` and `Loops` (driven parts, what
//! they read, loops of them), `Names`, `NameFaults` (phase 6), `BlockFaults` (7), `DriverFaults` and `ClockFaults` (8), `NotBuilt` (what
//! isn't built yet), `Verdict` (the least fault, or the design), `StandsFor`, `Laws` (what follows from these).
//! Promise: a design has one run at most over given rows (`one_run_law`). The other laws are statements so far.
#![tactic(auto)]

ghost use Rattle.vl_process.specs.Laws.{RunsAreOne};

/// A design has one run at most over given rows: its states, and the values of each cycle.
pub fn one_run_law()
    ensures { RunsAreOne }
{}
