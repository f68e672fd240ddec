//! Items that hold others, generate blocks and branches of the program's trees as the plain trees that definitions speak of,
//! part by part. Definitions and laws alone: a function that goes through items cites them.
//!
//! Below: `vl_tree` (trees). Above: what gathers the modules' names, notes what items declare and builds a design.
#![tactic(auto)]
