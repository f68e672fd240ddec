//! What of a design is counted up to a limit, and the first thing that passes it.
//!
//! Below: `vl_repeats` (which declarations count), `vl_span` (ranges of words), `vl_design` (what is counted). Above: what
//! tells the faults of a design's objects.
//! Promise: a `Limit` tells the first of the things that were added with which their sum is above the most; `add_words` adds
//! the words of a scope's memories, as `vl_design` counts them.
//! Not said: that memory is enough.
#![tactic(auto)]

pub mod limit;
pub mod words;
