//! Tests of `netlist`: a draft that fits, and beside it drafts that differ from it in one number, none of which fits.
//!
//! Below: `netlist`, `bit_ops`, `dt_core`. Above: nothing.
#![tactic(auto)]

#[cfg(test)]
mod draft;
#[cfg(test)]
mod limits;
#[cfg(test)]
mod tests;
