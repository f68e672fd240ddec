//! Tests of `packed_rows`: rows that are read as they were pushed, at widths round a word and at the limit of inputs.
//!
//! Below: `packed_rows`, `dt_core`. Above: nothing.
#![tactic(auto)]

#[cfg(test)]
mod rows;
