//! Drafts made without a test at each call.

use bit_ops::Binary;
use draft_maker::DraftMaker;
use netlist::design::{Effect, MemoryWrite, Range, Role};
use netlist::flat::FlatDraft;
use netlist::node::Operation;
use std::alloc::{AllocError, Global};
use std::test::Fail;

/// A draft that grows as that of a `DraftMaker`, and remembers whether memory ran out.
#[derive(Drop)]
pub struct Sketch {
    pub maker: DraftMaker,
    is_whole: bool,
}

impl Sketch {
    /// The draft of the top scope alone.
    pub fn new(alloc: Global) -> Result<Sketch, Fail> {
        let maker = DraftMaker::new(alloc)?;
        let is_whole = true;
        Ok(Sketch { maker, is_whole })
    }

    /// Whether there was memory for something else of the draft.
    pub fn expect(&mut self, kept: bool) {
        self.is_whole = self.is_whole && kept;
    }

    // The number that was made; 0 where memory ran out.
    fn number(&mut self, made: Result<u32, AllocError>) -> u32 {
        match made {
            Ok(number) => number,
            Err(_) => {
                self.is_whole = false;
                0
            }
        }
    }

    fn done(&mut self, made: Result<(), AllocError>) {
        if made.is_err() {
            self.is_whole = false;
        }
    }

    pub fn signal(&mut self, width: u32, role: Role, kept: u128) -> u32 {
        let made = self.maker.signal(width, role, kept);
        self.number(made)
    }

    pub fn inner(&mut self, width: u32) -> u32 {
        let made = self.maker.inner(width);
        self.number(made)
    }

    pub fn input(&mut self, width: u32) -> u32 {
        let made = self.maker.input(width);
        self.number(made)
    }

    pub fn node(&mut self, width: u32, operation: Operation) -> u32 {
        let made = self.maker.node(width, operation);
        self.number(made)
    }

    pub fn constant(&mut self, width: u32, value: u128) -> u32 {
        let made = self.maker.constant(width, value);
        self.number(made)
    }

    pub fn bits(&mut self, range: Range) -> u32 {
        let made = self.maker.bits(range);
        self.number(made)
    }

    pub fn binary(&mut self, width: u32, operator: Binary, left: u32, right: u32) -> u32 {
        let made = self.maker.binary(width, operator, left, right);
        self.number(made)
    }

    pub fn drive(&mut self, range: Range, node: u32) {
        let made = self.maker.drive(range, node);
        self.done(made);
    }

    pub fn register(&mut self, range: Range, block: u32, next: u32, initial: u128) {
        let made = self.maker.register(range, block, next, initial);
        self.done(made);
    }

    pub fn memory(&mut self, width: u32, first: u32, words: Vec<u128>, writer: Option<u32>) -> u32 {
        let made = self.maker.memory(width, first, words, writer);
        self.number(made)
    }

    pub fn write(&mut self, write: MemoryWrite) {
        let made = self.maker.write(write);
        self.done(made);
    }

    pub fn block(&mut self) -> u32 {
        let made = self.maker.block();
        self.number(made)
    }

    pub fn event(&mut self, condition: u32, effect: Effect) {
        let made = self.maker.event(condition, effect);
        self.done(made);
    }

    /// The draft, if there was memory for all of it.
    pub fn draft(self) -> Result<FlatDraft, Fail> {
        if self.is_whole {
            Ok(self.maker.draft)
        } else {
            Err(AllocError.into())
        }
    }
}
