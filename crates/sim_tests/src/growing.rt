//! Nodes by chance, of a draft in the making.

use crate::chance::Chance;
use crate::sketch::Sketch;
use bit_ops::{Binary, Unary, unary};
use draft_maker::range;
use dt_core::bits::Bits;
use netlist::design::{Index, Range};
use netlist::node::Operation;

static UNARY: [Unary; 10] = [
    Unary::Plus,
    Unary::Minus,
    Unary::Not,
    Unary::LogicNot,
    Unary::And,
    Unary::Nand,
    Unary::Or,
    Unary::Nor,
    Unary::Xor,
    Unary::Xnor,
];

static BINARY: [Binary; 20] = [
    Binary::Mul,
    Binary::Div,
    Binary::Rem,
    Binary::Add,
    Binary::Sub,
    Binary::Shl,
    Binary::Shr,
    Binary::Sar,
    Binary::Lt,
    Binary::Le,
    Binary::Gt,
    Binary::Ge,
    Binary::Eq,
    Binary::Ne,
    Binary::And,
    Binary::Xor,
    Binary::Xnor,
    Binary::Or,
    Binary::LogicAnd,
    Binary::LogicOr,
];

/// What gives a part of a signal its bits: nodes, which read driven parts of lower levels alone, or a block.
#[derive(Clone, Copy)]
pub enum Source {
    Driven(u32),
    Register,
}

/// Bits of a signal that a draft gives by nodes or by a block.
#[derive(Clone, Copy)]
pub struct Part {
    pub range: Range,
    pub source: Source,
}

/// The level of what may read all driven parts.
pub const ALL: u32 = 1_000_000;

/// A draft in the making: its parts, of each node the level of what it may read, and the numbers by chance.
#[derive(Drop)]
pub struct Growing {
    pub sketch: Sketch,
    pub parts: Vec<Part>,
    pub levels: Vec<u32>,
    pub chance: Chance,
}

/// One of a list's elements, if it has any.
pub fn one<T: Copy>(chance: &mut Chance, list: &[T]) -> Option<T> {
    let place = chance.below(u32::try_from(list.len()).unwrap_or(u32::MAX));
    list.get(place as usize).copied()
}

// The width that an operator gives.
fn unary_width(operator: Unary, width: u32) -> u32 {
    Bits::new(width, 0).map_or(width, |bits| unary(operator, bits).width())
}

fn share_a_bit(a: Range, b: Range) -> bool {
    a.signal == b.signal
        && a.low < b.low.saturating_add(b.width)
        && b.low < a.low.saturating_add(a.width)
}

impl Growing {
    // A node of a level.
    fn push(&mut self, level: u32, width: u32, operation: Operation) -> u32 {
        let kept = self.levels.push(level).is_ok();
        self.sketch.expect(kept);
        self.sketch.node(width, operation)
    }

    /// The width of a node.
    pub fn width(&self, node: u32) -> u32 {
        self.sketch
            .maker
            .draft
            .nodes
            .get(node as usize)
            .map_or(1, |node| node.width)
    }

    /// A node as an index, with a sign or not.
    pub fn index(&mut self, level: u32) -> Index {
        let node = self.operand(level);
        let signed = self.chance.one_of(2);
        Index { node, signed }
    }

    // A number.
    fn constant(&mut self, level: u32) -> u32 {
        let width = self.chance.width();
        let value = self.chance.bits(width);
        self.push(level, width, Operation::Constant { value })
    }

    // Bits of a signal by chance, that reach into no driven part of this level or a higher one; else a number.
    fn bits(&mut self, level: u32) -> u32 {
        for _ in 0..6 {
            let count = u32::try_from(self.sketch.maker.draft.signals.len()).unwrap_or(0);
            let signal = self.chance.below(count);
            let whole = self
                .sketch
                .maker
                .draft
                .signals
                .get(signal as usize)
                .map_or(1, |signal| signal.width);
            let low = if self.chance.one_of(2) {
                0
            } else {
                self.chance.below(whole)
            };
            let left = whole.saturating_sub(low);
            let width = if self.chance.one_of(2) {
                left
            } else {
                self.chance.below(left).saturating_add(1)
            };
            let range = range(signal, low, width);
            if self.may_read(level, range) {
                return self.push(level, width, Operation::Bits { range });
            }
        }
        self.constant(level)
    }

    // Whether no driven part of this level or a higher one has a bit of the range.
    fn may_read(&self, level: u32, range: Range) -> bool {
        self.parts.iter().all(|part| match part.source {
            Source::Driven(of) => of < level || !share_a_bit(part.range, range),
            Source::Register => true,
        })
    }

    // A word of a memory, if there is one; else bits.
    fn word(&mut self, level: u32) -> u32 {
        let count = u32::try_from(self.sketch.maker.draft.memories.len()).unwrap_or(0);
        let memory = self.chance.below(count);
        let width = match self.sketch.maker.draft.memories.get(memory as usize) {
            Some(memory) => memory.width,
            None => return self.bits(level),
        };
        let node = self.operand(level);
        let node = if self.chance.one_of(2) {
            self.fitted(level, node, 4)
        } else {
            node
        };
        let signed = self.chance.one_of(4);
        let index = Index { node, signed };
        self.push(level, width, Operation::Word { memory, index })
    }

    fn leaf(&mut self, level: u32) -> u32 {
        match self.chance.below(6) {
            0 => self.constant(level),
            1 => self.word(level),
            _ => self.bits(level),
        }
    }

    /// A node that may be read at this level; most often one of the last ones.
    pub fn operand(&mut self, level: u32) -> u32 {
        let count = u32::try_from(self.levels.len()).unwrap_or(0);
        for _ in 0..6 {
            let back = if self.chance.one_of(2) {
                self.chance.below(6)
            } else {
                self.chance.below(count)
            };
            let node = count.saturating_sub(1).saturating_sub(back);
            if self
                .levels
                .get(node as usize)
                .is_some_and(|of| *of <= level)
            {
                return node;
            }
        }
        self.bits(level)
    }

    /// A node at a width.
    pub fn fitted(&mut self, level: u32, of: u32, width: u32) -> u32 {
        let now = self.width(of);
        if now == width {
            of
        } else if width < now {
            self.push(level, width, Operation::Cut { of })
        } else {
            let signed = self.chance.one_of(2);
            self.push(level, width, Operation::Extend { signed, of })
        }
    }
    // An operator on one node.
    fn on_one(&mut self, level: u32) -> u32 {
        let of = self.operand(level);
        let operator = one(&mut self.chance, &UNARY).unwrap_or(Unary::Not);
        let width = unary_width(operator, self.width(of));
        self.push(level, width, Operation::Unary { operator, of })
    }

    // An operator on two nodes, of one width where it wants that.
    fn on_two(&mut self, level: u32) -> u32 {
        let left = self.operand(level);
        let right = self.operand(level);
        let operator = one(&mut self.chance, &BINARY).unwrap_or(Binary::Add);
        let signed = self.chance.one_of(2);
        let own = self.width(left);
        let (right, width) = match operator {
            Binary::Shl | Binary::Shr | Binary::Sar => (self.distance(level, right), own),
            Binary::LogicAnd | Binary::LogicOr => (right, 1),
            Binary::Lt | Binary::Le | Binary::Gt | Binary::Ge | Binary::Eq | Binary::Ne => {
                (self.fitted(level, right, own), 1)
            }
            _ => (self.fitted(level, right, own), own),
        };
        let operation = Operation::Binary {
            operator,
            signed,
            left,
            right,
        };
        self.push(level, width, operation)
    }

    // A node as a distance, which is small at times.
    fn distance(&mut self, level: u32, of: u32) -> u32 {
        if self.chance.one_of(2) {
            return of;
        }
        self.fitted(level, of, 6)
    }

    /// A node as a place, which is a small number at times.
    pub fn place(&mut self, level: u32) -> Index {
        let index = self.index(level);
        match self.chance.below(3) {
            0 => {
                let width = 7;
                let value = self.chance.bits(6);
                let node = self.push(level, width, Operation::Constant { value });
                Index { node, ..index }
            }
            1 => {
                let node = self.fitted(level, index.node, 6);
                Index { node, ..index }
            }
            _ => index,
        }
    }

    // Some bits of a node, or a node with other bits in it.
    fn at_place(&mut self, level: u32) -> u32 {
        let of = self.operand(level);
        let place = self.place(level);
        if self.chance.one_of(2) {
            let width = self.chance.width();
            return self.push(level, width, Operation::Select { of, place });
        }
        let part = self.operand(level);
        let width = self.width(of);
        self.push(level, width, Operation::Insert { of, place, part })
    }

    // Two nodes side by side, if they are no wider than a vector; else bits.
    fn beside(&mut self, level: u32) -> u32 {
        let left = self.operand(level);
        let right = self.operand(level);
        let width = self.width(left).saturating_add(self.width(right));
        if width > 128 {
            return self.bits(level);
        }
        self.push(level, width, Operation::Concat { left, right })
    }

    // One of two nodes, or one and another that changes nothing.
    fn choice(&mut self, level: u32) -> u32 {
        let yes = self.operand(level);
        let width = self.width(yes);
        let condition = self.operand(level);
        if self.chance.one_of(6) {
            return self.push(
                level,
                width,
                Operation::Keep {
                    of: yes,
                    also: condition,
                },
            );
        }
        let no = self.operand(level);
        let no = self.fitted(level, no, width);
        let operation = Operation::Choose { condition, yes, no };
        self.push(level, width, operation)
    }

    /// The bits of a part.
    pub fn whole(&mut self, part: Part) -> u32 {
        let range = part.range;
        self.push(ALL, range.width, Operation::Bits { range })
    }

    /// A node of any kind that may be read at this level.
    pub fn any(&mut self, level: u32) -> u32 {
        match self.chance.below(9) {
            0 | 1 => self.leaf(level),
            2 => self.on_one(level),
            3 | 4 => self.on_two(level),
            5 => self.at_place(level),
            6 => self.beside(level),
            7 => self.choice(level),
            _ => {
                let of = self.operand(level);
                let width = self.chance.width();
                self.fitted(level, of, width)
            }
        }
    }

    /// Some nodes; the last one, at a width.
    pub fn several(&mut self, level: u32, width: u32) -> u32 {
        let mut last = self.leaf(level);
        for _ in 0..self.chance.below(5) {
            last = self.any(level);
        }
        self.fitted(level, last, width)
    }
}
