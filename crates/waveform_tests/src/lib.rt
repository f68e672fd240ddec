//! Tests of `design_names` and `waveform` through what they make public: a hierarchy whose scopes don't stand in preorder,
//! and a counter's window.
//!
//! Below: `waveform`, `design_names`, `netlist`, `dt_io`, `dt_core`. Above: nothing.
#![tactic(auto)]

#[cfg(test)]
mod draft;
#[cfg(test)]
mod names;
#[cfg(test)]
mod waves;
