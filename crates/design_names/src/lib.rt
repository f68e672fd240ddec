//! What a numbered design of a whole hierarchy shows by name: the tree of its scopes, its variables in the order of the
//! waveform, its assertions with their scope and place, and the path of a scope.
//!
//! Below: `dt_core`, `netlist`. Above: `waveform` writes the tree and the values, and the report names assertions.
//! Promise: `Names` is what `specs/Shown`, `specs/Outline` and `specs/Stops` say of the design, whatever the order of
//! its scopes; `path` gives the names from the top down to a scope. `laws` says what follows: the variables of the tree are
//! the shown signals, what fires has the number of an assertion, a clock shows 0. Time is linear in scopes, signals
//! and events, and no call calls itself. Not said: that memory is enough.
#![tactic(auto)]

mod append;
pub mod laws;
mod links;
pub mod names;
pub mod outline;
pub mod path;
pub mod stops;
mod walk;
