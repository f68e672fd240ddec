//! What a module means: definitions alone, on plain trees and names.
//!
//! Below: `bit_ops` (operators), `design_names` (the words for what is shown by name), `flat_ir` (what fires, the numbered design's run and what it
//! shows), `vl_tree` (trees). Above: `vl_scope`, `vl_proc` and `vl_stands`, whose contracts cite them, and `dessert`, whose answer they are.
//! `specs/Objects` says what names stand for, `specs/Faults` which modules have no static fault, `specs/Expression` and
//! `specs/Statement` what is computed and executed, `specs/Run` the run cycle by cycle, `specs/Shown` what is shown by name,
//! `specs/StandsFor` when a numbered design of one block is a module's.
#![tactic(auto)]
