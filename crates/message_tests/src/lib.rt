//! Tests of `message_text` and `message_format`: texts that Icarus Verilog writes too, what fires of two blocks, and what
//! formats say or why they are bad.
//!
//! Below: `message_text`, `message_format`, `netlist`, `dt_core`. Above: nothing.
#![tactic(auto)]

#[cfg(test)]
mod formats;
#[cfg(test)]
mod telling;
#[cfg(test)]
mod values;
