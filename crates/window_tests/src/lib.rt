//! Tests of `window_run` through what it makes public: a counter with a memory, whose runs fail or don't, and the waveform
//! of a window that is reached by going back.
//!
//! Below: `window_run`, `flat_sim`, `comb_order`, `netlist`, `bit_ops`, `dt_io`, `dt_core`. Above: nothing.
#![tactic(auto)]

#[cfg(test)]
mod counter;
#[cfg(test)]
mod runs;
