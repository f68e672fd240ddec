//! The parts of a numbered design, but for its nodes. A part names another by its number, which is its place in the
//! design's list.

use dt_core::place::Place;
use dt_core::text::Text;
use std::marker::Model;

/// What a scope is in the text.
#[derive(Clone, Copy, Debug, PartialEq, Eq)]
pub enum ScopeKind {
    Instance,
    Generate,
}

/// An instance or a generate scope: the scope in which it stands, if one, its kind and its name.
#[derive(Debug, Drop)]
pub struct Scope {
    pub parent: Option<u32>,
    pub kind: ScopeKind,
    pub name: Text,
}

/// What a signal was declared as.
#[derive(Clone, Copy, Debug, PartialEq, Eq)]
pub enum SignalKind {
    Wire,
    Reg,
    Integer,
}

/// What gives a signal its value: it is a clock name, the data input of a number, or neither, and then parts give it
/// its bits.
#[derive(Clone, Copy, Debug, PartialEq, Eq)]
pub enum Role {
    Clock,
    Input(u32),
    Inner,
}

/// A net or a variable: the scope in which it stands, if one, its name, its kind, its width of 1 to `MAX_WIDTH` bits,
/// and its role.
///
/// A variable of no scope is seen by nobody outside. `kept` is what its bits hold in every cycle that lie in no part,
/// a number below 2^width; of a clock name and of a data input it says nothing.
#[derive(Debug, Drop)]
pub struct Signal {
    pub scope: Option<u32>,
    pub name: Text,
    pub kind: SignalKind,
    pub width: u32,
    pub role: Role,
    pub kept: u128,
}

/// Some bits of a signal: so many as the width says, from the place `low` upward, counted from 0 at the right.
#[derive(Clone, Copy, Debug, PartialEq, Eq)]
pub struct Range {
    pub signal: u32,
    pub low: u32,
    pub width: u32,
}

/// Bits that have the value of a node in each cycle.
#[derive(Clone, Copy, Debug, PartialEq, Eq)]
pub struct DrivenPart {
    pub range: Range,
    pub node: u32,
}

/// Bits that a clocked block writes: they begin with `initial`, a number below 2^width, and take the value of the
/// node `next` from one cycle to the next.
#[derive(Clone, Copy, Debug, PartialEq, Eq)]
pub struct RegisterPart {
    pub range: Range,
    pub block: u32,
    pub next: u32,
    pub initial: u128,
}

/// The value of a node as a whole number: in two's complement where it is signed.
#[derive(Clone, Copy, Debug, PartialEq, Eq)]
pub struct Index {
    pub node: u32,
    pub signed: bool,
}

/// A memory: the width of its words of 1 to `MAX_WIDTH` bits, the indices of its first and its last word, its words
/// in the first cycle from the least index on, each below 2^width, and the clocked block that writes it. What no
/// block writes is constant.
#[derive(Debug, Drop)]
pub struct Memory {
    pub width: u32,
    pub first: u32,
    pub last: u32,
    pub words: Vec<u128>,
    pub writer: Option<u32>,
}

impl Model for Memory {
    ghost use Rattle.netlist.specs.Plain.{PlainMemory};

    ghost Value = { PlainMemory };

    ghost view = { λ m. record {
      width = m.width;
      first = m.first;
      last = m.last;
      words = m.words.items;
      writer = m.writer;
    } };
}

/// A write of a clocked block: where the condition, a node, isn't 0, the `width` bits from `place` upward of the
/// memory's word at `index` take the value of a node. What falls outside of the memory or of the word is lost.
#[derive(Clone, Copy, Debug, PartialEq, Eq)]
pub struct MemoryWrite {
    pub block: u32,
    pub condition: u32,
    pub memory: u32,
    pub index: Index,
    pub place: Index,
    pub width: u32,
    pub value: u32,
}

/// The base of a value's digits, or the character of its low byte.
#[derive(Clone, Copy, Debug, PartialEq, Eq)]
pub enum Base {
    Binary,
    Octal,
    Decimal,
    Hexadecimal,
    Character,
}

/// A node's value in a message: its sign, its base, and whether it has the fewest digits (`%0d` and the like).
#[derive(Clone, Copy, Debug, PartialEq, Eq)]
pub struct Shown {
    pub node: u32,
    pub signed: bool,
    pub base: Base,
    pub fewest: bool,
}

/// A piece of a message, or an assertion that fires: where its statement stands, and whether it is spelt `$fatal`.
#[derive(Debug, Drop)]
pub enum Effect {
    Said(Text),
    Showed(Shown),
    Stopped(Place, bool),
}

/// What a clocked block does beside its writes, in the cycles in which the condition, a node, isn't 0.
#[derive(Debug, Drop)]
pub struct Event {
    pub condition: u32,
    pub effect: Effect,
}

/// A clocked block: the scope in which it stands, and its events in order of execution.
#[derive(Debug, Drop)]
pub struct Block {
    pub scope: u32,
    pub events: Vec<Event>,
}

impl Model for Block {
    ghost use Rattle.netlist.specs.Plain.{PlainBlock};

    ghost Value = { PlainBlock };

    ghost view = { λ b. record { scope = b.scope; events = b.events.items } };
}
