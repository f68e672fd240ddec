//! How far a design is built: how many instances and expanded tokens there are, whether there are too many, and the least fault so far.
//!
//! Below: `vl_design` (what a text asks for, and how far that is heard), `vl_found` (faults), `vl_tokens` (counts that stop). Above: what
//! walks through the modules of a source.
//! Promise: each call hears one request, or the faults of one item, as `vl_design` says; behind the end nothing is heard.
#![tactic(auto)]

pub mod progress;
