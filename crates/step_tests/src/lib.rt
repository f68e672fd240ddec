//! Tests of `step_program`: the values of steps of each kind, and programs whose steps read one another.
//!
//! Below: `step_program`, `bit_ops`, `dt_core`. Above: nothing.
#![tactic(auto)]

#[cfg(test)]
mod chain;
#[cfg(test)]
mod kinds;
