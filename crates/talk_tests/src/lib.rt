//! Tests of `talk`: command lines and reports as tables. They stand in a crate of their own, since a crate with
//! tests is proved twice.
//!
//! Below: `talk`, `dt_io` (a sink in memory), `dt_core`. Above: nothing.
//! Promise: none. Each table has what no clause says: the very words and texts.
#![tactic(auto)]

#[cfg(test)]
mod reports;
#[cfg(test)]
mod words;
