//! Names that were met: whether one was, and the number that one got.
//!
//! Below: `dt_core` (texts). Above: what gathers names of parameters, of declarations and of connections.
//! Promise: a set has the names that were added and no others; a name has the number that it got last. A look-up and an
//! addition take constant time, as far as hashing goes.
//! Not said: that memory is enough.
#![tactic(auto)]

ghost use Rattle.std.specs.Prelude.{◌≡◌, Some, IfOk, OnOk, nat_eq};
ghost use Rattle.std.specs.Cmp.Lexicographic.{pointwise};
ghost use Rattle.indexmap.specs.IndexMap.{Updates};
ghost use Rattle.vl_names.specs.Names.{Adds, HasNone, HasNoNumber, Numbers, has, number_of};

use dt_core::text::Text;
use indexmap::IndexMap;
use std::alloc::{AllocError, Global};

/// A set of names.
#[derive(Drop)]
pub struct NameSet {
    names: IndexMap<Text, u32>,
}

impl NameSet {
    /// No name.
    pub fn new(alloc: Global) -> NameSet
        ensures { HasNone result }
    {
        NameSet {
            names: IndexMap::new(alloc),
        }
    }

    /// Whether a name was added.
    pub fn has(&self, name: &Text) -> bool
        ensures { result ≡ has self.now name.now }
    {
        self.names.get(name).is_some()
    }

    /// Adds a name.
    pub fn add(&mut self, alloc: Global, name: &Text) -> Result<(), AllocError>
        ensures { OnOk result (Adds name.now self.old self.new) }
    {
        put(alloc, &mut self.names, name, 0)?;
        Ok(())
    }
}

/// Numbers by name.
#[derive(Drop)]
pub struct NameNumbers {
    numbers: IndexMap<Text, u32>,
}

impl NameNumbers {
    /// No name has a number.
    pub fn new(alloc: Global) -> NameNumbers
        ensures { HasNoNumber result }
    {
        NameNumbers {
            numbers: IndexMap::new(alloc),
        }
    }

    /// The number of a name.
    pub fn number(&self, name: &Text) -> Option<u32>
        ensures { result ≡ number_of self.now name.now }
    {
        self.numbers.get(name).copied()
    }

    /// Gives a name a number.
    pub fn set(&mut self, alloc: Global, name: &Text, number: u32) -> Result<(), AllocError>
        ensures { OnOk result (Numbers name.now number self.old self.new) }
    {
        put(alloc, &mut self.numbers, name, number)?;
        Ok(())
    }
}

fn put(
    alloc: Global,
    numbers: &mut IndexMap<Text, u32>,
    name: &Text,
    number: u32,
) -> Result<(), AllocError>
    ensures { OnOk result (Updates (pointwise nat_eq) numbers.old numbers.new name.now (Some number)) }
{
    let key = copied(alloc, name)?;
    match numbers.insert(key, number) {
        Ok(_) => Ok(()),
        Err(_) => Err(AllocError),
    }
}

// A text of its own.
fn copied(alloc: Global, name: &Text) -> Result<Text, AllocError>
    ensures { IfOk result (λ t. t ≡ name.now) }
{
    match Text::copied(alloc, name.bytes()) {
        Ok(text) => Ok(text),
        Err(_) => Err(AllocError),
    }
}
