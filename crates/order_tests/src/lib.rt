//! Tests of `comb_order`: small designs with their order or loop, and large ones.
//!
//! Below: `comb_order`, `draft_maker`, `netlist`, `dt_core`. Above: nothing.
#![tactic(auto)]

#[cfg(test)]
mod draft;
#[cfg(test)]
mod tests;
