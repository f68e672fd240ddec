//! Tests of `net_compile`: designs become programs, whose slots hold the values of nodes, also where a node of a higher
//! number drives what one of a lower number reads.
//!
//! Below: `net_compile`, `draft_maker`, `step_program`, `comb_order`, `netlist`, `bit_ops`, `dt_core`. Above: nothing.
#![tactic(auto)]

#[cfg(test)]
mod tests;
