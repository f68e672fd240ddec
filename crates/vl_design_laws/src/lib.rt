//! Laws of the designs that sources are: of what the laws of runs ask of a design, and of the limits that it keeps.
//!
//! Below: `vl_design` (which design a source is), `vl_process` (how many words a memory has). Above: what makes the numbered design of a source.
//! Promise: `inputs_law`: each data input is one of the signals. `limits_law`: there are no more signals and words of memories than may be.
//! Not said: that no two objects have one path; how many inputs there are.
#![tactic(auto)]

ghost use Rattle.vl_design_laws.specs.Laws.{InputsLaw, LimitsLaw};

/// Each data input of the design of a source is one of its signals.
pub fn inputs_law()
    ensures { InputsLaw }
{}

/// The design of a source has no more signals and no more words of memories than may be.
pub fn limits_law()
    ensures { LimitsLaw }
{}
