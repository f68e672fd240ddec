//! Ranges of bits and of a memory's words whose bounds were read: which faults they have, and what they are.
//!
//! Below: `vl_design` (what a range is, and what is wrong with it), `vl_width` (constants, declared ranges), `vl_found`
//! (faults). Above: what reads ranges, parameters and declarations of a scope.
//! Promise: `index_of` is the number of a bound; `vector_fault` and `words_fault` tell the least fault of a vector's range
//! and of the words', `shape` and `words` what the range is, as `vl_design` says.
#![tactic(auto)]

pub mod index;
pub mod span;
