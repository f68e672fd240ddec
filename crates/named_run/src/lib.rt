//! A run that contracts name, and the tokens that carry its registers from one partition of a design to another.
//!
//! Below: `dt_core`, `bit_ops`, `netlist`. Above: `board_rule`, `gang_board`, `token_chan`, and what runs a cut
//! design on threads.
//! Promise: a `Values` is its list of bit vectors, filled and read in place. `specs/Named` says what the run of a
//! `RunData` is: its states, the token of each channel in each cycle, and which assertions of a leader fire when. That
//! run is the design's own: it knows no partition but by the numbers of what each owns and what each channel carries.
#![tactic(auto)]

pub mod run;
pub mod token;
