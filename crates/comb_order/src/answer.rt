//! What `order` answers.

ghost use Rattle.std.specs.Prelude.{◌≡◌};

use std::marker::Model;

/// A list of all driven parts of a design by number, each after those that it reads.
#[derive(Debug, Drop)]
pub struct Order {
    pub(crate) parts: Vec<u32>,
}

impl Model for Order {
    ghost use Rattle.std.specs.Prelude.{List, ℕ};

    ghost Value = { List ℕ };

    ghost view = { λ o. o.parts.items };
}

impl Order {
    /// The driven parts, by number.
    pub fn parts(&self) -> &[u32]
        ensures { result.now ≡ self.now }
    {
        &self.parts
    }
}

/// The driven parts of a loop by number: the first is the least part that reads itself, directly or through others, and
/// each next one leads back to it in the fewest reads and, among those, has the least number.
#[derive(Debug, Drop)]
pub struct LoopParts {
    pub(crate) parts: Vec<u32>,
}

impl Model for LoopParts {
    ghost use Rattle.std.specs.Prelude.{List, ℕ};

    ghost Value = { List ℕ };

    ghost view = { λ l. l.parts.items };
}

impl LoopParts {
    /// The driven parts, by number.
    pub fn parts(&self) -> &[u32]
        ensures { result.now ≡ self.now }
    {
        &self.parts
    }
}

/// Why there is no order: a loop, or that memory ran out.
#[derive(Debug, Drop)]
pub enum OrderFault {
    Loop(LoopParts),
    Memory,
}

/// An order or a loop, by the numbers of driven parts.
#[derive(Drop)]
pub(crate) enum Found {
    Order(Vec<u32>),
    Loop(Vec<u32>),
}
