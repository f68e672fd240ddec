//! Drafts by chance: each fits, and its driven parts have an order.

use crate::chance::Chance;
use crate::growing::{ALL, Growing, Part, Source, one};
use crate::sketch::Sketch;
use draft_maker::range;
use dt_core::place::Place;
use dt_core::text::Text;
use netlist::design::{Base, Effect, MemoryWrite, Role, Shown};
use netlist::flat::FlatDraft;
use std::alloc::Global;
use std::test::Fail;

static BASES: [Base; 5] = [
    Base::Binary,
    Base::Octal,
    Base::Decimal,
    Base::Hexadecimal,
    Base::Character,
];

impl Growing {
    // A signal whose bits are cut into driven parts, register parts and bits that it keeps.
    fn add_signal(&mut self) -> Result<(), Fail> {
        let width = self.chance.width();
        let kept = self.chance.bits(width);
        let signal = self.sketch.signal(width, Role::Inner, kept);
        let mut low = 0;
        for _ in 0..width {
            let left = width.saturating_sub(low);
            let count = if self.chance.one_of(2) {
                left
            } else {
                self.chance.below(left).saturating_add(1)
            };
            let range = range(signal, low, count.min(left));
            match self.chance.below(5) {
                0 | 1 => {
                    let level = self.chance.below(100);
                    self.parts.push(Part {
                        range,
                        source: Source::Driven(level),
                    })?;
                }
                2 | 3 => self.parts.push(Part {
                    range,
                    source: Source::Register,
                })?,
                _ => {}
            }
            low = low.saturating_add(range.width);
            if low >= width {
                break;
            }
        }
        Ok(())
    }

    // A clock name, some data inputs and other signals.
    fn add_signals(&mut self) -> Result<(), Fail> {
        self.sketch.signal(1, Role::Clock, 0);
        for _ in 0..=self.chance.below(3) {
            let width = self.chance.width();
            self.sketch.input(width);
        }
        for _ in 0..=self.chance.below(7) {
            self.add_signal()?;
        }
        Ok(())
    }

    // A memory of some words, which a block writes, if one.
    fn add_memory(&mut self, alloc: Global, blocks: u32) -> Result<(), Fail> {
        let width = self.chance.width();
        let mut words = Vec::new(alloc);
        for _ in 0..=self.chance.below(6) {
            words.push(self.chance.bits(width))?;
        }
        let first = self.chance.below(5);
        let writer = if self.chance.one_of(4) {
            None
        } else {
            Some(self.chance.below(blocks))
        };
        let memory = self.sketch.memory(width, first, words, writer);
        if self.chance.one_of(3) {
            if let Some(memory) = self.sketch.maker.draft.memories.get_mut(memory as usize) {
                let first = memory.first;
                memory.first = memory.last;
                memory.last = first;
            }
        }
        Ok(())
    }

    // The nodes of all driven parts, in an order that isn't that of the levels.
    fn add_driven(&mut self, alloc: Global) -> Result<(), Fail> {
        let parts = self.parts.as_slice().to_vec(alloc)?;
        for part in &parts {
            if let Source::Driven(level) = part.source {
                let node = self.several(level, part.range.width);
                self.sketch.drive(part.range, node);
            }
        }
        Ok(())
    }

    // The next nodes of all register parts; at times two take them from one another.
    fn add_registers(&mut self, alloc: Global, blocks: u32) -> Result<(), Fail> {
        let parts = self.parts.as_slice().to_vec(alloc)?;
        for part in &parts {
            if let Source::Register = part.source {
                let width = part.range.width;
                let next = self.next_node(&parts, width);
                let block = self.chance.below(blocks);
                let initial = self.chance.bits(width);
                self.sketch.register(part.range, block, next, initial);
            }
        }
        Ok(())
    }

    // A next node: of any kind, or another part's bits.
    fn next_node(&mut self, parts: &[Part], width: u32) -> u32 {
        if self.chance.one_of(3) {
            if let Some(other) = one(&mut self.chance, parts) {
                let node = self.whole(other);
                return self.fitted(ALL, node, width);
            }
        }
        self.several(ALL, width)
    }

    // A write to each memory that some block writes, and at times a second one to the same word.
    fn add_writes(&mut self) {
        let count = u32::try_from(self.sketch.maker.draft.memories.len()).unwrap_or(0);
        for _ in 0..self.chance.below(5) {
            let memory = self.chance.below(count);
            let found = self
                .sketch
                .maker
                .draft
                .memories
                .get(memory as usize)
                .and_then(|memory| memory.writer);
            if let Some(block) = found {
                self.add_write(memory, block);
            }
        }
    }

    fn add_write(&mut self, memory: u32, block: u32) {
        let mut index = self.index(ALL);
        if self.chance.one_of(2) {
            index.node = self.fitted(ALL, index.node, 3);
        }
        let mut write = MemoryWrite {
            block,
            condition: self.any(ALL),
            memory,
            index,
            place: self.place(ALL),
            width: 1,
            value: self.any(ALL),
        };
        write.width = self.width(write.value);
        self.sketch.write(write);
        if self.chance.one_of(2) {
            write.value = self.any(ALL);
            write.width = self.width(write.value);
            self.sketch.write(write);
        }
    }

    // An event of the last block.
    fn add_event(&mut self, alloc: Global) -> Result<(), Fail> {
        let condition = self.any(ALL);
        let effect = match self.chance.below(3) {
            0 => Effect::Said(Text::copied(alloc, b"said ")?),
            1 => Effect::Showed(Shown {
                node: self.operand(ALL),
                signed: self.chance.one_of(2),
                base: one(&mut self.chance, &BASES).unwrap_or(Base::Decimal),
                fewest: self.chance.one_of(2),
            }),
            _ => Effect::Stopped(Place { token: 0, line: 1 }, false),
        };
        self.sketch.event(condition, effect);
        Ok(())
    }
}

/// The draft of a number.
pub fn draft(alloc: Global, seed: u32) -> Result<FlatDraft, Fail> {
    let mut growing = Growing {
        sketch: Sketch::new(alloc)?,
        parts: Vec::new(alloc),
        levels: Vec::new(alloc),
        chance: Chance::new(u64::from(seed)),
    };
    let blocks = growing.chance.below(3).saturating_add(1);
    growing.add_signals()?;
    for _ in 0..growing.chance.below(3) {
        growing.add_memory(alloc, blocks)?;
    }
    growing.add_driven(alloc)?;
    growing.add_registers(alloc, blocks)?;
    growing.add_writes();
    for _ in 0..blocks {
        growing.sketch.block();
        for _ in 0..growing.chance.below(7) {
            growing.add_event(alloc)?;
        }
    }
    growing.sketch.draft()
}
