//! Straight-line programs over slots: what a design's nodes are compiled to, and what runs once a cycle.
//!
//! Below: `dt_core`, `bit_ops`. Above: what compiles a numbered design, and what runs it. Nothing here knows of designs.
//! Promise: a `Builder` gives a slot with the value of each step that is put into it, for all numbers that are given and
//! all words of memories (`specs/Values` says what a step's value is); its program, closed, has each of these values in
//! the slot that its `Placement` names (`specs/Plan`), and `Program::run` computes them.
//! How: a narrow slot holds a number below 2^64, a wide one below 2^128. Constants stand in slots of their own, which are
//! filled once. Steps are done in runs of one kind: a fast step costs a few instructions, with nothing to choose and no
//! bound to test; a rare step is any operation of `bit_ops`, chosen step by step. A run takes no memory.
//! Not said: how long a run takes; that memory is enough.
#![tactic(auto)]

mod arranger;
pub mod builder;
mod entry;
mod fast;
pub mod forms;
mod grow;
mod keys;
mod known;
pub mod laws;
mod numbers;
mod operands;
pub mod placement;
pub mod program;
pub mod rare;
mod rename;
mod runs;
mod schedule;
pub mod step;
pub mod words;

pub use arranger::Closed;
