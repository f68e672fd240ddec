//! All that a scope declares: what its items declare that stand in it, in regions and in `if`s that make no scope, and the labels of the blocks
//! that are there.
//!
//! Below: `vl_declares` (items that hold no others), `vl_turns` (turns and conditions), `vl_design` (what a scope declares). Above: what
//! opens a scope.
//! Promise: `declare_items` appends exactly what `vl_design` says that the items of a scope declare, and leaves the names in sight as they
//! are behind the items. No block that makes a scope is entered, and of a loop the first turn alone is looked at.
//! Not said: that memory is enough.
#![tactic(auto)]

pub mod label;
pub mod members;
pub mod opening;
mod turn;
