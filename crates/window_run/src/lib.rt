//! A run of a design over rows as they come, up to its first failure, and the waveform of the window that leads to it.
//!
//! Below: `flat_sim` (a design's cycles), `state_changes` (what they changed), `packed_rows` (the last rows), `waveform`
//! (the text), `netlist`, `message_text`. Above: `dessert`, which reads the rows and answers.
//! Promise: a `Run` knows the first cycle of the rows in which an assertion fires, and what fires there (`specs/Ran`, over
//! `specs/Over`). After it nothing is computed. `write_window` writes the waveform of the cycles from `lag` before it on,
//! or from the first one (`specs/Window`), with one step for each of them: the run goes back to the window's first cycle by
//! undoing what was noted, and runs the last rows, which are kept, again.
//! At the start memory is taken for the rows that are kept; after it for notes alone, and for messages and texts.
//! Not said: that memory is enough.
#![tactic(auto)]

pub mod failure;
mod replay;
pub mod run;
