//! The parts of a numbered design.

use dt_core::text::Text;

/// What a signal was declared as.
#[derive(Clone, Copy, Debug, PartialEq, Eq)]
pub enum SignalKind {
    Wire,
    Reg,
    Integer,
}

/// What a signal shows: the clock, or the data input or the register of a number.
#[derive(Clone, Copy, Debug, PartialEq, Eq)]
pub enum Role {
    Clock,
    Input(u32),
    Register(u32),
}

/// A named signal: its name, its kind, its width of 1 to `MAX_WIDTH` bits, and what it shows.
#[derive(Debug, Drop)]
pub struct Signal {
    pub name: Text,
    pub kind: SignalKind,
    pub width: u32,
    pub role: Role,
}

/// A node of an expression, whose value in a cycle is a number below 2^`MAX_WIDTH`. It reads nodes of lower numbers alone.
#[derive(Clone, Copy, Debug, PartialEq, Eq)]
pub enum Node {
    Constant(u128),
    /// The value of a data input in the row.
    Input(u32),
    /// The value of a register in the state.
    Register(u32),
    /// left + right, modulo 2^width
    Sum(u32, u32, u32),
    /// 1 where both are equal, else 0
    Equal(u32, u32),
    /// 1 where it is 0, else 0
    Not(u32),
    /// 1 where neither is 0, else 0
    And(u32, u32),
    /// its low `width` bits: the node, the width
    Cut(u32, u32),
}

/// What the clocked block does where a condition holds.
#[derive(Debug, Drop)]
pub enum Deed {
    /// The register takes the value of the node in the next state.
    Write(u32, u32),
    /// The text of the format is said, in which an item shows the node's value; then a line's end.
    Say(Text, Option<u32>),
    /// An assertion fires; its line in the text.
    Stop(u32),
}

/// A deed, done in the cycles in which the value of its condition, a node, isn't 0.
#[derive(Debug, Drop)]
pub struct Action {
    pub condition: u32,
    pub deed: Deed,
}
