//! What a source is as a design: its instances and generate scopes with their constants, the objects that each declares,
//! what a name stands for in each, and every fault of these (phases 4 and 5). Definitions alone, on plain trees.
//!
//! Below: `vl_value` (what expressions are worth, their faults, paths), `vl_tree` (trees). Above: what builds a design's
//! scopes, resolves its names and makes the numbered design.
//! In order of reading: `specs/Constants`, `Spans` and `Parameters` (constants while a design is built, ranges, what an
//! instance gives), `Declarations` (what a scope declares), `Generate` and `Scopes` (turns, branches and instances, as a list of
//! requests), `Walk` (how far they are heard, the top, the faults of phase 4), `Objects` (one object of two declarations,
//! names in sight), `LoopVariables`, `Clocks`, `ObjectFaults` (the faults of phase 5), `Design` (the least fault, or the
//! design).
#![tactic(auto)]

pub mod limits;
