//! Drafts of numbered designs, made piece by piece, for tests and measuring programs.
//!
//! Below: `netlist`, `bit_ops`, `dt_core`. Above: tests and measuring programs alone.
//! Promise: none. Whether a draft fits is asked of the draft.
#![tactic(auto)]

use bit_ops::Binary;
use dt_core::text::Text;
use netlist::design::{
    Block, DrivenPart, Effect, Event, Memory, MemoryWrite, Range, RegisterPart, Role, Scope,
    ScopeKind, Signal, SignalKind,
};
use netlist::flat::FlatDraft;
use netlist::node::{Node, Operation};
use std::alloc::{AllocError, Global};

/// A draft that grows: each call adds one piece, behind those of its kind, and gives its number.
#[derive(Drop)]
pub struct DraftMaker {
    alloc: Global,
    pub draft: FlatDraft,
}

// The number of the next piece; the greatest number, which no piece has, where there are too many.
fn number(count: usize) -> u32 {
    u32::try_from(count).unwrap_or(u32::MAX)
}

/// The range of a signal's bits from the place `low` upward.
pub fn range(signal: u32, low: u32, width: u32) -> Range {
    Range { signal, low, width }
}

impl DraftMaker {
    /// The draft of the top scope alone.
    pub fn new(alloc: Global) -> Result<DraftMaker, AllocError> {
        let top = Scope {
            parent: None,
            kind: ScopeKind::Instance,
            name: Text::of_bytes(Vec::new(alloc)),
        };
        let draft = FlatDraft {
            scopes: vec![in alloc; top]?,
            signals: Vec::new(alloc),
            inputs: Vec::new(alloc),
            driven: Vec::new(alloc),
            registers: Vec::new(alloc),
            memories: Vec::new(alloc),
            nodes: Vec::new(alloc),
            writes: Vec::new(alloc),
            blocks: Vec::new(alloc),
        };
        Ok(DraftMaker { alloc, draft })
    }

    /// A signal of no scope that keeps bits.
    pub fn signal(&mut self, width: u32, role: Role, kept: u128) -> Result<u32, AllocError> {
        let signal = number(self.draft.signals.len());
        self.draft.signals.push(Signal {
            scope: None,
            name: Text::of_bytes(Vec::new(self.alloc)),
            kind: SignalKind::Wire,
            width,
            role,
            kept,
        })?;
        Ok(signal)
    }

    /// A signal of no scope whose bits are 0 where no part gives them.
    pub fn inner(&mut self, width: u32) -> Result<u32, AllocError> {
        self.signal(width, Role::Inner, 0)
    }

    /// A data input: the number of its signal.
    pub fn input(&mut self, width: u32) -> Result<u32, AllocError> {
        let place = number(self.draft.inputs.len());
        let signal = self.signal(width, Role::Input(place), 0)?;
        self.draft.inputs.push(signal)?;
        Ok(signal)
    }

    /// A node.
    pub fn node(&mut self, width: u32, operation: Operation) -> Result<u32, AllocError> {
        let node = number(self.draft.nodes.len());
        self.draft.nodes.push(Node { width, operation })?;
        Ok(node)
    }

    /// A node that is a number.
    pub fn constant(&mut self, width: u32, value: u128) -> Result<u32, AllocError> {
        self.node(width, Operation::Constant { value })
    }

    /// A node that reads bits of a signal.
    pub fn bits(&mut self, range: Range) -> Result<u32, AllocError> {
        self.node(range.width, Operation::Bits { range })
    }

    /// A node that is an operator without signs on two nodes.
    pub fn binary(
        &mut self,
        width: u32,
        operator: Binary,
        left: u32,
        right: u32,
    ) -> Result<u32, AllocError> {
        let signed = false;
        self.node(
            width,
            Operation::Binary {
                operator,
                signed,
                left,
                right,
            },
        )
    }

    /// A driven part with the value of a node.
    pub fn drive(&mut self, range: Range, node: u32) -> Result<(), AllocError> {
        self.draft.driven.push(DrivenPart { range, node })?;
        Ok(())
    }

    /// A register part that a block writes.
    pub fn register(
        &mut self,
        range: Range,
        block: u32,
        next: u32,
        initial: u128,
    ) -> Result<(), AllocError> {
        self.draft.registers.push(RegisterPart {
            range,
            block,
            next,
            initial,
        })?;
        Ok(())
    }

    /// A memory with these words, of the indices from `first` upward, which a block writes, if one.
    pub fn memory(
        &mut self,
        width: u32,
        first: u32,
        words: Vec<u128>,
        writer: Option<u32>,
    ) -> Result<u32, AllocError> {
        let memory = number(self.draft.memories.len());
        let last = first.saturating_add(number(words.len()).saturating_sub(1));
        self.draft.memories.push(Memory {
            width,
            first,
            last,
            words,
            writer,
        })?;
        Ok(memory)
    }

    /// A write to a memory, after those before it.
    pub fn write(&mut self, write: MemoryWrite) -> Result<(), AllocError> {
        self.draft.writes.push(write)?;
        Ok(())
    }

    /// A clocked block of the top scope, without events.
    pub fn block(&mut self) -> Result<u32, AllocError> {
        let block = number(self.draft.blocks.len());
        let events = Vec::new(self.alloc);
        self.draft.blocks.push(Block { scope: 0, events })?;
        Ok(block)
    }

    /// An event of the last block, after those before it.
    pub fn event(&mut self, condition: u32, effect: Effect) -> Result<(), AllocError> {
        if let Some(block) = self.draft.blocks.last_mut() {
            block.events.push(Event { condition, effect })?;
        }
        Ok(())
    }
}
