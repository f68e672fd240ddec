//! What an expression means: its width, its sign, and its value where it stands; which expressions are constant, what an
//! expression reads, and which faults it has. Definitions alone, on plain trees and names.
//!
//! Below: `bit_ops` (operators), `vl_tree` (trees). Above: what gives expressions their sizes, resolves names, and
//! builds the numbered design; the meaning of statements and of whole designs.
//! `specs/Paths` says how an object is named from the top, `specs/Things` what a name stands for, `specs/Meaning` what
//! an expression is worth, `specs/Constant` what is constant, `specs/Reads` what is read, bit by bit,
//! `specs/Order` which of several faults is told, `specs/Faults` which faults an expression has.
#![tactic(auto)]
