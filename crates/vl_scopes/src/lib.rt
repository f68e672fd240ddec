//! The scopes of a design: instances and generate blocks, in preorder.
//!
//! Below: `vl_declares` (what a scope declares), `vl_tree` (trees), `vl_design` (what scopes are). Above: what builds the scopes of a source,
//! and what looks at all of them.
//! Promise: `Scope` is one scope by the number of the one in which it stands; `specs/Plain` says which scopes of `vl_design` a list of them
//! is. `Origin::items`: the items of a scope.
#![tactic(auto)]

pub mod scope;
pub mod tree;
