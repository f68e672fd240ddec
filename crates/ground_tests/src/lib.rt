//! Tests of `dt_core`, `bit_ops` and `dt_io` through what they make public, in a crate of their own: a crate with tests is
//! proved twice.
#![tactic(auto)]

#[cfg(test)]
mod operators;
#[cfg(test)]
mod streams;
#[cfg(test)]
mod vectors;
