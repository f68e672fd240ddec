//! The numbered design of a whole hierarchy: scopes, signals, driven and register parts, memories, nodes of
//! expressions, writes in order, and blocks with their events.
//!
//! Below: `dt_core`, `bit_ops`. Above: what orders its driven parts and runs it. It takes the place of `flat_ir`,
//! which numbers one module with one clocked block, once the crates above stand on it.
//! Promise: `FlatDraft::fits` answers true exactly where the parts fit together (`specs/Fits`), and a `Flat` is such
//! a design. `specs/Values` says what the values of its nodes are, `specs/Run` what settles in a cycle, the next
//! state and what fires, `specs/Graph` what its parts read, `specs/Order` what an order and a loop of them are,
//! `specs/Message` what text a value has. `laws` says what follows: no bit lies in two parts, the nodes have one list
//! of values, a node reads what its operation reads and what the nodes that it reads do, where there is an order
//! one valuation settles, that of the order, and what settles has the bits of its parts. No call takes memory. Not
//! said: that a design has an order.
#![tactic(auto)]

mod counts;
pub mod design;
pub mod flat;
pub mod laws;
mod memories;
pub mod node;
mod operations;
mod parts;
mod signals;
