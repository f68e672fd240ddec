//! Tests of what a module declares and of the faults of phase 5 that one scope has, by tables of texts.
//!
//! Below: `vl_connections`, `vl_declares`, `vl_parameters` and what reads a text.
#![tactic(auto)]

#[cfg(test)]
mod alone;
#[cfg(test)]
mod connected;
#[cfg(test)]
mod given;
#[cfg(test)]
mod read;
