//! Steps, and the slots that they read. A step puts its value into the next slot of its kind.

ghost use Rattle.std.specs.Prelude.{◌≡◌};
ghost use Rattle.step_program.specs.Values as values;
ghost use Rattle.step_program.specs.Arranging as arranging;

use bit_ops::{Binary, Unary};

/// A slot by its number: a narrow one holds a number below 2^64, a wide one below 2^128.
#[derive(Clone, Copy)]
pub enum Slot {
    Narrow(u32),
    Wide(u32),
}

/// Two narrow slots.
#[derive(Clone, Copy, PartialEq, Eq)]
pub struct Two {
    pub left: u32,
    pub right: u32,
}

/// The narrow slot `yes` where the condition isn't 0, else `no`.
#[derive(Clone, Copy, PartialEq, Eq)]
pub struct Pick {
    pub condition: u32,
    pub yes: u32,
    pub no: u32,
}

/// One bit: whether the bits of `of` in the mask are the number in `like`, or differ from it.
#[derive(Clone, Copy, PartialEq, Eq)]
pub struct Test {
    pub of: u32,
    pub like: u32,
    pub mask: u64,
    pub differs: bool,
}

/// The bits of `high` times `scale` and those of `low` in one number. Where the scale is a power of two above `low`,
/// `low` stands to the right of `high`.
#[derive(Clone, Copy, PartialEq, Eq)]
pub struct Join {
    pub high: u32,
    pub low: u32,
    pub scale: u64,
}

/// The bits of a mask in `of` from a place below 64 on.
#[derive(Clone, Copy, PartialEq, Eq)]
pub struct Take {
    pub of: u32,
    pub from: u32,
    pub mask: u64,
}

/// The bits of a mask in the sum of two narrow slots.
#[derive(Clone, Copy, PartialEq, Eq)]
pub struct Sum {
    pub left: u32,
    pub right: u32,
    pub mask: u64,
}

/// The low `width` bits of a slot, from 1 to `MAX_WIDTH`.
#[derive(Clone, Copy)]
pub struct Operand {
    pub slot: Slot,
    pub width: u32,
}

/// The whole number that an operand stands for, below 0 only where it is signed.
#[derive(Clone, Copy)]
pub struct Number {
    pub of: Operand,
    pub signed: bool,
}

/// An operation of `bit_ops` on slots of either kind, each with its width.
#[derive(Clone, Copy)]
pub enum Calculation {
    /// A number below 2^width.
    Constant {
        value: u128,
    },
    Unary {
        operator: Unary,
        of: Operand,
    },
    Binary {
        operator: Binary,
        signed: bool,
        left: Operand,
        right: Operand,
    },
    /// The operand at a width that isn't less, by its sign or by zeros.
    Extend {
        signed: bool,
        of: Operand,
    },
    /// The low bits of the operand.
    Cut {
        of: Operand,
    },
    /// So many bits of the operand as the width says, from a place upward; 0 at places outside.
    Select {
        of: Operand,
        place: Number,
    },
    /// The operand `of` with the bits of another from a place upward; what falls outside is lost.
    Insert {
        of: Operand,
        place: Number,
        part: Operand,
    },
    /// The left operand, and to the right of it the right one.
    Concat {
        left: Operand,
        right: Operand,
    },
    /// The operand `yes` where the condition isn't 0, else `no`.
    Choose {
        condition: Operand,
        yes: Operand,
        no: Operand,
    },
    /// The word of a memory at an index, cut to the width; 0 where it has none there. Its first word has the least
    /// index.
    Word {
        memory: u32,
        least: u32,
        index: Number,
    },
}

/// A rare step: the width of its value, from 1 to `MAX_WIDTH`, and how it comes about.
#[derive(Clone, Copy)]
pub struct Rare {
    pub width: u32,
    pub calculation: Calculation,
}

/// What puts a value into a slot. The value of a fast step is narrow, that of a rare one narrow where its width is at
/// most 64.
#[derive(Clone, Copy)]
pub enum Step {
    And(Two),
    Or(Two),
    Xor(Two),
    Pick(Pick),
    Test(Test),
    Join(Join),
    Take(Take),
    Sum(Sum),
    Rare(Rare),
}

impl Slot {
    // Its number.
    pub(crate) fn number(self) -> u32
        ensures { result ≡ arranging.slot_number self }
    {
        match self {
            Slot::Narrow(number) | Slot::Wide(number) => number,
        }
    }
}

impl Step {
    // Whether its value stands in a narrow slot.
    pub(crate) fn is_narrow(&self) -> bool
        ensures { result ≡ values.is_narrow self.now }
    {
        match self {
            Step::Rare(rare) => rare.width <= 64,
            _ => true,
        }
    }
}
