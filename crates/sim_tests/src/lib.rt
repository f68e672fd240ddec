//! Tests of `flat_sim`: designs made by hand, and designs by chance beside a plain reading of what a run is.
//!
//! Below: `flat_sim`, `net_compile`, `step_program`, `comb_order`, `message_text`, `draft_maker`, `netlist`, `bit_ops`,
//! `dt_core`. Above: nothing.
//! `values` and `reading` say bit by bit what `netlist/specs/{Values,Run}` say; `compare` runs a design beside them.
#![tactic(auto)]

#[cfg(test)]
mod by_hand;
#[cfg(test)]
mod chance;
#[cfg(test)]
mod compare;
#[cfg(test)]
mod drafts;
#[cfg(test)]
mod growing;
#[cfg(test)]
mod reading;
#[cfg(test)]
mod sketch;
#[cfg(test)]
mod tests;
#[cfg(test)]
mod values;
