//! The numbered design: signals, inputs, registers, nodes of expressions, and the actions of the clocked block.
//!
//! Below: `dt_core`, `bit_ops`, `design_names` (the words for what is shown by name). Above: `vl_proc` makes one of a module, `one_block` makes
//! a design of a hierarchy of it.
//! Promise: a `Flat` is well-formed: each number in it names something that is there, nodes read lower nodes, and a signal has from 1 to
//! `MAX_WIDTH` bits. `specs/FlatRun` says what its run is, `specs/Settled` what its nodes' values are, `specs/Fired` what fires, `specs/Pieces` what
//! a format is, `specs/Format` what its text is, `specs/Shown` what is shown by name. `format_law` and `settled_law` tie them.
#![tactic(auto)]

pub mod design;
pub mod flat;
pub mod format;
