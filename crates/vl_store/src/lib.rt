//! Laws of stores and values: a store has words by path, as statements and drivers see them, values have numbers by place in a design's
//! lists, as a numbered design has them.
//!
//! Below: `vl_process` (stores, writes, values). Above: what makes a design's drivers and blocks into nodes.
//! Promise: `store_law`: where no two objects have one path, looking up and numbering undo one another, a write changes one number, and
//! writes in order are writes one after another.
#![tactic(auto)]

ghost use Rattle.vl_store.specs.Stores.{StoreLaw};

/// What is looked up by path is what stands by number; a write to a signal or a memory's word puts bits into that number alone; a list of
/// writes does what its writes do one after another. A call does nothing: its contract is the law.
pub fn store_law()
    ensures { StoreLaw }
{}
