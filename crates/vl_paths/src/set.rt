//! Sets of paths.

ghost use Rattle.std.specs.Prelude.{◌≡◌, ◌+◌, ◌<◌, length, OnOk};
ghost use Rattle.vl_paths.specs.Sets as sets;

use dt_core::text::Text;
use std::alloc::{AllocError, Global};
use vl_names::NameSet;

/// A set of paths, each told by the number of the path before its last step, which is a name.
#[derive(Drop)]
pub struct PathSet {
    names: Vec<NameSet>,
}

impl PathSet {
    /// No path.
    pub fn new(alloc: Global) -> PathSet
        ensures { sets.HasNone result }
    {
        PathSet {
            names: Vec::new(alloc),
        }
    }

    /// Whether the path of a name below that of a number was added.
    pub fn has(&self, path: usize, name: &Text) -> bool
        ensures { result ≡ sets.has self.now path name.now }
    {
        match self.names.get(path) {
            Some(names) => names.has(name),
            None => false,
        }
    }

    /// Adds the path of a name below that of a number; where there is no number, nothing.
    pub fn add(&mut self, alloc: Global, path: Option<usize>, name: &Text) -> Result<(), AllocError>
        ensures { OnOk result (sets.Adds path name.now self.old self.new) }
    {
        let Some(number) = path else {
            return Ok(());
        };
        grow(alloc, &mut self.names, number)?;
        self.names[number].add(alloc, name)
    }
}

// Makes room for the names below the path of a number.
fn grow(alloc: Global, names: &mut Vec<NameSet>, number: usize) -> Result<(), AllocError>
    ensures same { OnOk result (sets.HaveSame names.old.items names.new.items) }
    ensures within { OnOk result (number < length names.new.items) }
{
    while names.len() <= number {
        push(alloc, names)?;
    }
    Ok(())
}

// No names below one path more.
fn push(alloc: Global, names: &mut Vec<NameSet>) -> Result<(), AllocError>
    ensures same { OnOk result (sets.HaveSame names.old.items names.new.items) }
    ensures more { OnOk result (length names.new.items ≡ length names.old.items + 1) }
{
    match names.push(NameSet::new(alloc)) {
        Ok(()) => Ok(()),
        Err(_) => Err(AllocError),
    }
}
