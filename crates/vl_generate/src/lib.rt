//! What a walk through the items of a scope asks at each of them: which parts an item has, which block of an `if` is taken, whether a loop
//! makes a turn and with which number, how the scope of a block is named, and how generate constructs are numbered.
//!
//! Below: `vl_turns` (conditions and genvars), `vl_scopes` (steps of paths), `vl_design` (what generate constructs mean). Above: what walks
//! through the modules of a source.
//! Promise: each call answers one of these questions exactly as `vl_design` does (IEEE 1364-2005, 12.4), with the least fault where a
//! constant is needed. None calls itself through blocks, so that the walk alone has to end.
//! Not said: that memory is enough.
#![tactic(auto)]

pub mod choice;
pub mod construct;
pub mod form;
pub mod step;
pub mod turning;
