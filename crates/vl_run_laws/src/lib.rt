//! Laws of runs: what a numbered design does is what the design for which it stands does.
//!
//! Below: `vl_store` (lists by place), `vl_process` (what a design does, and when a numbered design stands for it), `netlist` (the run of a
//! numbered design). Above: what makes the numbered design of a source.
//! Promise: `fires_law`: over values that fit, the same assertions fire, in the same order, with the same messages. `holds_law`: all drivers
//! hold exactly where each driven part has its node's value; `driven_bits_law`: they drive the bits of those parts. `parts_law`: the parts
//! of a design are the maximal runs of bits of one driver, or of one block, in order. `nodes_fit_law`: values of nodes fit.
//! `given_law`: the state and the row say the same of a signal in both. `fitting_law`: what settles fits the design.
//! `settling_law`: the same values settle with both.
//! `running_law`: the run of a numbered design is the design's.
#![tactic(auto)]

ghost use Rattle.vl_process.specs.Laws.{FiresLaw};
ghost use Rattle.vl_run_laws.specs.DrivenBits.{DrivenBitsLaw, HoldsLaw};
ghost use Rattle.vl_run_laws.specs.Fitting.{FittingLaw};
ghost use Rattle.vl_run_laws.specs.Given.{GivenLaw};
ghost use Rattle.vl_run_laws.specs.NodeValues.{NodesFitLaw};
ghost use Rattle.vl_run_laws.specs.Parts.{PartsLaw};
ghost use Rattle.vl_run_laws.specs.Running.{RunningLaw};
ghost use Rattle.vl_run_laws.specs.Settling.{SettlingLaw};

/// Over values that fit, the same assertions fire in the numbered design and in the design, in the same order.
pub fn fires_law()
    ensures { FiresLaw }
{}

/// Each bit that a driver drives lies in a driven part of the first driver that does, each that a block may assign in a register part;
/// parts have no other bits, stand in order, and two of one owner never meet.
pub fn parts_law()
    ensures { PartsLaw }
{}

/// The value of each node of a well-formed design is within its width, over memories whose words are within theirs.
pub fn nodes_fit_law()
    ensures { NodesFitLaw }
{}

/// The bits that drivers drive are those of the driven parts of the numbered design.
pub fn driven_bits_law()
    ensures { DrivenBitsLaw }
{}

/// Over values that fit, all drivers of the design hold exactly where each driven part of the numbered design has its node's value.
pub fn holds_law()
    ensures { HoldsLaw }
{}

/// What the state and the row say of a signal where nothing drives it is the same in the numbered design and in the design.
pub fn given_law()
    ensures { GivenLaw }
{}

/// What settles with a numbered design, over a state and a row that fit, has values that fit the design.
pub fn fitting_law()
    ensures { FittingLaw }
{}

/// The same values settle with the numbered design and with the design, over a state and a row that fit.
pub fn settling_law()
    ensures { SettlingLaw }
{}

/// Over rows that fit, a run of a numbered design that has an order is the design's: its states and values, and what fires in each cycle.
pub fn running_law()
    ensures { RunningLaw }
{}
