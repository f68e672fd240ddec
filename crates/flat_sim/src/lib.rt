//! The simulator: a numbered design run one cycle after another, as a compiled program.
//!
//! Below: `dt_core`, `bit_ops`, `netlist`, `step_program`, `net_compile`, `message_text`, `state_changes`,
//! `held_state` (what a cycle does to a state). Above: what runs a design over rows.
//! Promise: a cycle settles to the one valuation of `FlatSettles` of `netlist/specs/Run`; the next state is `flat_next`,
//! what fires is `flat_fired`, and a signal has its value in that valuation. A settle counts one step. What a cycle
//! changes can be noted in a journal, and then the simulator goes back to the cycle before (`held_state/specs/Back`).
//! How: the given slots of the design's program hold the state's registers and the row, the words of all memories stand
//! beside them. What is called once a cycle copies no memory, and takes none but for notes.
//! Not said: how long a cycle takes; that memory is enough.
#![tactic(auto)]

mod compared;
mod events;
mod kept;
mod signals;
pub mod sim;
pub mod state;
pub mod steps;
mod stops;
