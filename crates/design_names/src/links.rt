//! Things that stand in owners, as lists without a copy: of each owner the first, and of each thing the next.

ghost use Rattle.std.specs.Prelude.{◌≡◌, ◌<◌, ◌^◌, length, IfOk};
ghost use Rattle.std.specs.List.{All};
ghost use Rattle.netlist.specs.Fits.{IsNoneOrBelow};
ghost use Rattle.design_names.specs.Links.{IsLinked, first_after, next_after};

use dt_core::fault::NoMemory;
use std::alloc::Global;

/// Of each owner the first thing that stands in it, and of each thing the next one in the same owner.
#[derive(Drop)]
pub(crate) struct Links {
    pub(crate) first: Vec<Option<u32>>,
    pub(crate) next: Vec<Option<u32>>,
}

/// Links things that stand in these owners, of which there are so many. Linear in things and owners.
pub(crate) fn link(alloc: Global, owners: &[Option<u32>], count: usize) -> Result<Links, NoMemory>
    requires owners { All (IsNoneOrBelow count) owners.now }
    requires few { length owners.now < 2 ^ 32 }
    ensures { IfOk result (IsLinked owners.now count) }
{
    let mut links = Links {
        first: vec![in alloc; None; count]?,
        next: vec![in alloc; None; owners.len()]?,
    };
    let mut left = owners.len();
    while left > 0 {
        left -= 1;
        links.put(owners[left], left);
    }
    Ok(links)
}

impl Links {
    // Puts a thing in front of those of its owner, if it has one.
    fn put(&mut self, owner: Option<u32>, number: usize)
        requires owner { IsNoneOrBelow (length self.old.first.items) owner }
        requires number { number < length self.old.next.items }
        requires few { number < 2 ^ 32 }
        ensures first { self.new.first.items ≡ first_after self.old.first.items owner number }
        ensures next { self.new.next.items ≡ next_after self.old.first.items self.old.next.items owner number }
    {
        if let Some(owner) = owner {
            self.next[number] = self.first[owner as usize];
            self.first[owner as usize] = Some(number as u32);
        }
    }
}
