//! The whole numbered design.

ghost use Rattle.std.specs.Prelude.{◌≡◌, ◌↔◌, ◌<◌, ◌^◌, length, IsTrue};
ghost use Rattle.netlist.specs.Fits.{IsWellFormed, IsNumbered, SignalsFit, PartsFit, MemoriesFit};
ghost use Rattle.netlist.specs.Drafted.{drafted};

use crate::counts::{
    can_be_numbered, has_few_events, has_few_inputs, has_few_signals, has_few_words_and_bits,
};
use crate::design::{Block, DrivenPart, Memory, MemoryWrite, RegisterPart, Scope, Signal};
use crate::memories::{blocks_fit, memories_fit, writes_fit};
use crate::node::Node;
use crate::operations::nodes_fit;
use crate::parts::{are_apart, driven_fit, driven_in_order, registers_fit, registers_in_order};
use crate::signals::{inputs_fit, scopes_fit, signals_fit};
use std::marker::Model;

/// The parts of a numbered design, which may not fit together yet.
///
/// The first scope is the top. `inputs` are the signals that are data inputs, in order of the ports. The driven parts
/// and the register parts stand in order of signal, then of place, the writes in order of execution.
#[derive(Drop)]
pub struct FlatDraft {
    pub scopes: Vec<Scope>,
    pub signals: Vec<Signal>,
    pub inputs: Vec<u32>,
    pub driven: Vec<DrivenPart>,
    pub registers: Vec<RegisterPart>,
    pub memories: Vec<Memory>,
    pub nodes: Vec<Node>,
    pub writes: Vec<MemoryWrite>,
    pub blocks: Vec<Block>,
}

impl FlatDraft {
    /// Whether the parts are a well-formed design. It takes no memory, and time linear in the parts.
    pub fn fits(&self) -> bool
        ensures { IsTrue result ↔ IsWellFormed (drafted self.now) }
    {
        self.can_all_be_numbered()
            && !self.scopes.is_empty()
            && scopes_fit(&self.scopes)
            && self.do_signals_fit()
            && nodes_fit(&self.signals, &self.memories, &self.nodes)
            && self.do_parts_fit()
            && self.do_memories_fit()
            && blocks_fit(&self.scopes, &self.nodes, &self.blocks)
    }

    // Whether there are fewer than 2^32 of each kind.
    fn can_all_be_numbered(&self) -> bool
        ensures { IsTrue result ↔ IsNumbered (drafted self.now) }
    {
        can_be_numbered(self.scopes.len())
            && can_be_numbered(self.signals.len())
            && can_be_numbered(self.driven.len())
            && can_be_numbered(self.registers.len())
            && can_be_numbered(self.memories.len())
            && can_be_numbered(self.nodes.len())
            && can_be_numbered(self.writes.len())
            && can_be_numbered(self.blocks.len())
            && has_few_events(&self.blocks)
    }
    // Whether the signals and the data inputs fit.
    fn do_signals_fit(&self) -> bool
        requires { IsNumbered (drafted self.now) }
        ensures { IsTrue result ↔ SignalsFit (drafted self.now) }
    {
        signals_fit(&self.scopes, &self.inputs, &self.signals)
            && inputs_fit(&self.signals, &self.inputs)
            && has_few_signals(&self.signals)
            && has_few_inputs(&self.signals, &self.inputs)
    }

    // Whether the driven parts and the register parts fit.
    fn do_parts_fit(&self) -> bool
        ensures { IsTrue result ↔ PartsFit (drafted self.now) }
    {
        driven_fit(&self.signals, &self.nodes, &self.driven)
            && registers_fit(&self.blocks, &self.signals, &self.nodes, &self.registers)
            && driven_in_order(&self.driven)
            && registers_in_order(&self.registers)
            && are_apart(&self.driven, &self.registers)
    }

    // Whether the memories and the writes fit.
    fn do_memories_fit(&self) -> bool
        requires { IsNumbered (drafted self.now) }
        ensures { IsTrue result ↔ MemoriesFit (drafted self.now) }
    {
        memories_fit(&self.blocks, &self.memories)
            && writes_fit(&self.blocks, &self.memories, &self.nodes, &self.writes)
            && has_few_words_and_bits(&self.registers, &self.memories)
    }

    /// The design of these parts. It takes no memory.
    pub fn close(self) -> Flat
        requires { IsWellFormed (drafted self) }
        ensures { result ≡ drafted self }
    {
        Flat { draft: self }
    }
}

/// A numbered design, well-formed.
#[derive(Drop)]
pub struct Flat {
    draft: FlatDraft,
}

impl Model for Flat {
    ghost use Rattle.netlist.specs.Design as design;

    ghost Value = { design.Flat };

    ghost use Rattle.netlist.specs.Drafted.{drafted};
    ghost use Rattle.netlist.specs.Fits.{IsWellFormed};

    ghost view = { λ f. drafted f.draft };

    ghost invariant = { λ f. IsWellFormed (drafted f.draft) };
}

impl Flat {
    /// The scopes, the top first, each after the one in which it stands.
    pub fn scopes(&self) -> &[Scope]
        ensures scopes { result.now ≡ self.now.scopes }
        ensures fits { IsWellFormed self.now }
    {
        &self.draft.scopes
    }

    /// The signals, in order of number.
    pub fn signals(&self) -> &[Signal]
        ensures signals { result.now ≡ self.now.signals }
        ensures fits { IsWellFormed self.now }
    {
        &self.draft.signals
    }

    /// The number of signals.
    pub fn signal_count(&self) -> u32
        ensures { result ≡ length self.now.signals }
    {
        self.draft.signals.len() as u32
    }

    /// The signals that are data inputs, in order of the ports.
    pub fn inputs(&self) -> &[u32]
        ensures inputs { result.now ≡ self.now.inputs }
        ensures fits { IsWellFormed self.now }
    {
        &self.draft.inputs
    }

    /// The driven parts, in order of signal, then of place.
    pub fn driven(&self) -> &[DrivenPart]
        ensures driven { result.now ≡ self.now.driven }
        ensures fits { IsWellFormed self.now }
    {
        &self.draft.driven
    }

    /// The register parts, in order of signal, then of place.
    pub fn registers(&self) -> &[RegisterPart]
        ensures registers { result.now ≡ self.now.registers }
        ensures fits { IsWellFormed self.now }
    {
        &self.draft.registers
    }

    /// The memories, in order of number.
    pub fn memories(&self) -> &[Memory]
        ensures memories { result.now ≡ self.now.memories }
        ensures fits { IsWellFormed self.now }
    {
        &self.draft.memories
    }

    /// The nodes, each of which reads lower ones.
    pub fn nodes(&self) -> &[Node]
        ensures nodes { result.now ≡ self.now.nodes }
        ensures fits { IsWellFormed self.now }
    {
        &self.draft.nodes
    }

    /// The writes to memories, in order of execution.
    pub fn writes(&self) -> &[MemoryWrite]
        ensures writes { result.now ≡ self.now.writes }
        ensures fits { IsWellFormed self.now }
    {
        &self.draft.writes
    }

    /// The clocked blocks, in order of number.
    pub fn blocks(&self) -> &[Block]
        ensures blocks { result.now ≡ self.now.blocks }
        ensures fits { IsWellFormed self.now }
    {
        &self.draft.blocks
    }
}
