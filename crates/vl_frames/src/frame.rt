//! The names of one scope.

ghost use Rattle.std.specs.Prelude.{◌≡◌, Some, None, OnOk, IfOk, nat_eq};
ghost use Rattle.std.specs.Cmp.Lexicographic.{pointwise};
ghost use Rattle.std.specs.Option.{option_map};
ghost use Rattle.indexmap.specs.IndexMap.{get, Updates};
ghost use Rattle.vl_frames.specs.Marks.{IsEmptyFrame, plain_worth, told, told_genvar};

use crate::mark::{Mark, Worth};
use dt_core::text::Text;
use indexmap::IndexMap;
use std::alloc::{AllocError, Global};

/// What one scope tells of names: of constants, and whether a name is a genvar's.
#[derive(Drop)]
pub struct Frame {
    pub constants: IndexMap<Text, Mark>,
    pub genvars: IndexMap<Text, bool>,
}

impl Frame {
    /// No name.
    pub fn new(alloc: Global) -> Frame
        ensures { IsEmptyFrame result }
    {
        Frame {
            constants: IndexMap::new(alloc),
            genvars: IndexMap::new(alloc),
        }
    }

    /// What a constant is worth in the scope, where outer scopes tell this.
    pub fn worth(&self, name: &Text, outer: Option<Worth>) -> Option<Worth>
        ensures { let mark = get (pointwise nat_eq) self.now.constants name.now in
            option_map plain_worth result ≡ told mark (option_map plain_worth outer) }
    {
        match self.constants.get(name) {
            Some(mark) => (*mark).worth(),
            None => outer,
        }
    }

    /// Whether a name is a genvar's in the scope, where outer scopes tell this.
    pub fn is_genvar(&self, name: &Text, outer: bool) -> bool
        ensures { result ≡ told_genvar (get (pointwise nat_eq) self.now.genvars name.now) outer }
    {
        match self.genvars.get(name) {
            Some(told) => *told,
            None => outer,
        }
    }

    /// Marks a name.
    pub fn mark(&mut self, alloc: Global, name: &Text, mark: Mark) -> Result<(), AllocError>
        ensures constants { OnOk result (Updates (pointwise nat_eq) self.old.constants self.new.constants name.now (Some mark)) }
        ensures genvars { self.new.genvars ≡ self.old.genvars }
    {
        let key = copied(alloc, name)?;
        match self.constants.insert(key, mark) {
            Ok(_) => Ok(()),
            Err(_) => Err(AllocError),
        }
    }

    /// Tells whether a name is a genvar's.
    pub fn tell(&mut self, alloc: Global, name: &Text, is_genvar: bool) -> Result<(), AllocError>
        ensures constants { self.new.constants ≡ self.old.constants }
        ensures genvars { OnOk result (Updates (pointwise nat_eq) self.old.genvars self.new.genvars name.now (Some is_genvar)) }
    {
        let key = copied(alloc, name)?;
        match self.genvars.insert(key, is_genvar) {
            Ok(_) => Ok(()),
            Err(_) => Err(AllocError),
        }
    }
}

// A text of its own.
fn copied(alloc: Global, name: &Text) -> Result<Text, AllocError>
    ensures { IfOk result (λ t. t ≡ name.now) }
{
    match Text::copied(alloc, name.bytes()) {
        Ok(text) => Ok(text),
        Err(_) => Err(AllocError),
    }
}
