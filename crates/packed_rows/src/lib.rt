//! Rows of values that are kept packed.
//!
//! Below: `dt_core` (limits, faults). Above: what keeps the last rows of a run.
//! Promise: `PackedRows` is a list of rows of the same widths. A row is kept in as many words of 64 bits as all widths
//! together need, and is read as it was pushed. `LastRows` are the last of the rows that were pushed, so many at most. All
//! memory is taken at the start, for as many rows as are asked for.
//! Not said: that memory is enough.
#![tactic(auto)]

mod held;
pub mod last;
mod pack;
pub mod rows;
mod unpack;
