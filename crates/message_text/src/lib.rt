//! Texts of messages: values in a base, and what the clocked blocks say in a cycle.
//!
//! Below: `dt_core`, `bit_ops`, `netlist` (`specs/Message`: which text a value has; `specs/Run`: what fires), `itoa`.
//! Above: what runs a design.
//! Promise: `append_value` appends the text of a value, for each base, width and sign, all digits or the fewest.
//! `Telling` goes through the events of the blocks, each with its condition and, where that holds, the value that it
//! shows: one event, one block (`block_fired`) or all blocks (`blocks_fired`). What fired, with the messages, is what
//! the definition says. It can be begun again for the next cycle.
//! No call takes memory but for the texts and the list of what fired, whose room stays from cycle to cycle; each
//! message that fired keeps the room of its text. Not said: that memory is enough.
#![tactic(auto)]

mod decimal;
mod radix;
pub mod telling;
pub mod value;
