//! What a run changed of a design's state in its last cycles, so that it can go back over them.
//!
//! Below: `dt_core`, `netlist`. Above: `flat_sim`, which notes what a clock edge changes and goes back; `window_run`, which
//! keeps the log of a window.
//! Promise: a `Journal` holds what was noted in each of the last cycles, at most as many as it was made for, the newest first.
//! What is noted while a state is changed by one element after another, undone from the newest on, gives the state before
//! (`laws::undo_law`). After the start memory is taken by `reserve` alone, which at least doubles it; after a refusal all is as it was.
//! Not said: that memory is enough.
#![tactic(auto)]

pub mod changes;
pub mod journal;
pub mod laws;
