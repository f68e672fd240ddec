//! Tests of `vl_sized` through what it makes public: random expressions with what Icarus Verilog says that they are worth,
//! expressions with their width and sign, and expressions with their fault.
//!
//! Below: `vl_sized` and what reads a text. Above: the program of `bench/expressions.py`, which takes its names from here.
#![tactic(auto)]

#[cfg(test)]
mod faults;
pub mod sample;
#[cfg(test)]
mod sizes;
#[cfg(test)]
mod table;
#[cfg(test)]
mod worth;
