//! The state of a design that runs, as its program's slots and the words of its memories hold it, and what a cycle does to it.
//!
//! Below: `dt_core`, `bit_ops`, `netlist`, `step_program`, `net_compile`, `state_changes`. Above: `flat_sim`, the simulator.
//! Promise: numbers are put into slots (`given`); the writes of a cycle are done in order, in place (`writes`); the register
//! parts take the values of their next nodes at once (`commits`); what a cycle changes is noted with its old values
//! (`noting`), and notes are undone from the newest on (`undoing`), which gives the state before (`specs/Back`).
//! What is called once a cycle takes no memory and copies no memory.
//! Not said: how long a cycle takes.
#![tactic(auto)]

pub mod commits;
pub mod given;
pub mod nodes;
pub mod noting;
pub mod undoing;
pub mod writes;
