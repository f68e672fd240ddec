//! Designs made by hand.

use crate::sketch::Sketch;
use bit_ops::Binary;
use draft_maker::range;
use dt_core::place::Place;
use dt_core::text::Text;
use netlist::design::{Base, Effect, Index, MemoryWrite, Role, Shown};
use netlist::flat::FlatDraft;
use netlist::node::Operation;
use std::alloc::Global;
use std::test::Fail;

/// Two numbers of 4 bits, and a carry into the lowest place: carries and sum, a driven part for each place, of which
/// those at the left have the lower nodes. The signals are the operands, the carries and the sum.
pub fn ripple_carry(alloc: Global) -> Result<FlatDraft, Fail> {
    let mut sketch = Sketch::new(alloc)?;
    sketch.input(4);
    sketch.input(4);
    sketch.signal(5, Role::Inner, 1);
    sketch.inner(4);
    let mut carries = Vec::new(alloc);
    let mut sums = Vec::new(alloc);
    for low in [3, 2, 1, 0] {
        let left = sketch.bits(range(0, low, 1));
        let right = sketch.bits(range(1, low, 1));
        let carry = sketch.bits(range(2, low, 1));
        let both = sketch.binary(1, Binary::And, left, right);
        let either = sketch.binary(1, Binary::Xor, left, right);
        let passed = sketch.binary(1, Binary::And, either, carry);
        carries.push((low, sketch.binary(1, Binary::Or, both, passed)))?;
        sums.push((low, sketch.binary(1, Binary::Xor, either, carry)))?;
    }
    for (low, node) in carries.iter().rev() {
        sketch.drive(range(2, low.saturating_add(1), 1), *node);
    }
    for (low, node) in sums.iter().rev() {
        sketch.drive(range(3, *low, 1), *node);
    }
    sketch.draft()
}

/// A vector of 8 bits: one block writes its right half with the left one, another its left half with the right one
/// and 1.
pub fn two_halves(alloc: Global) -> Result<FlatDraft, Fail> {
    let mut sketch = Sketch::new(alloc)?;
    sketch.inner(8);
    sketch.block();
    sketch.block();
    let low = sketch.bits(range(0, 0, 4));
    let high = sketch.bits(range(0, 4, 4));
    let one = sketch.constant(4, 1);
    let more = sketch.binary(4, Binary::Add, low, one);
    sketch.register(range(0, 0, 4), 0, high, 3);
    sketch.register(range(0, 4, 4), 1, more, 9);
    sketch.draft()
}

fn index(node: u32) -> Index {
    Index {
        node,
        signed: false,
    }
}

/// A memory of the words 2 to 4, of 8 bits: where the third input holds, the word at the first input takes the second
/// input, and then its bits from 2 upward the low half of that; where the second input's highest bit is set, word 4
/// takes 0x77 in the end. The fourth signal is the word at the first input.
pub fn three_writes(alloc: Global) -> Result<FlatDraft, Fail> {
    let mut sketch = Sketch::new(alloc)?;
    sketch.input(3);
    sketch.input(8);
    sketch.input(1);
    sketch.inner(8);
    let block = sketch.block();
    let memory = sketch.memory(8, 2, vec![in alloc; 0x11, 0x22, 0x33]?, Some(block));
    let at = sketch.bits(range(0, 0, 3));
    let value = sketch.bits(range(1, 0, 8));
    let condition = sketch.bits(range(2, 0, 1));
    let word = sketch.node(
        8,
        Operation::Word {
            memory,
            index: index(at),
        },
    );
    let low = sketch.bits(range(1, 0, 4));
    let high = sketch.bits(range(1, 7, 1));
    let zero = sketch.constant(1, 0);
    let two = sketch.constant(2, 2);
    let four = sketch.constant(3, 4);
    let other = sketch.constant(8, 0x77);
    sketch.drive(range(3, 0, 8), word);
    let whole = MemoryWrite {
        block,
        condition,
        memory,
        index: index(at),
        place: index(zero),
        width: 8,
        value,
    };
    sketch.write(whole);
    sketch.write(MemoryWrite {
        place: index(two),
        width: 4,
        value: low,
        ..whole
    });
    sketch.write(MemoryWrite {
        condition: high,
        index: index(four),
        value: other,
        ..whole
    });
    sketch.draft()
}

fn said(alloc: Global, text: &[u8]) -> Result<Effect, Fail> {
    Ok(Effect::Said(Text::copied(alloc, text)?))
}

fn shown(node: u32, base: Base, fewest: bool) -> Effect {
    Effect::Showed(Shown {
        node,
        signed: false,
        base,
        fewest,
    })
}

fn stopped() -> Effect {
    Effect::Stopped(Place { token: 0, line: 1 }, false)
}

/// Two blocks over an input of 4 bits. The first says its number where it isn't 0, stops at 3, says that it is big
/// above 8 and stops there too. The second says its digits where it is odd, stops at 9, and says something after that.
pub fn two_blocks_that_stop(alloc: Global) -> Result<FlatDraft, Fail> {
    let mut sketch = Sketch::new(alloc)?;
    sketch.input(4);
    let number = sketch.bits(range(0, 0, 4));
    let odd = sketch.bits(range(0, 0, 1));
    let three = sketch.constant(4, 3);
    let eight = sketch.constant(4, 8);
    let nine = sketch.constant(4, 9);
    let is_three = sketch.binary(1, Binary::Eq, number, three);
    let is_big = sketch.binary(1, Binary::Gt, number, eight);
    let is_nine = sketch.binary(1, Binary::Eq, number, nine);
    sketch.block();
    sketch.event(number, said(alloc, b"a=")?);
    sketch.event(number, shown(number, Base::Decimal, true));
    sketch.event(is_three, stopped());
    sketch.event(is_big, said(alloc, b" big")?);
    sketch.event(is_big, stopped());
    sketch.block();
    sketch.event(odd, shown(number, Base::Binary, false));
    sketch.event(is_nine, stopped());
    sketch.event(odd, said(alloc, b"late")?);
    sketch.draft()
}

/// A register x of 128 bits beside an input d: the sum of d and of x with its halves changed, the product of both,
/// whether x is less than d as signed numbers; x takes the product where it is, else the sum.
pub fn wide_values(alloc: Global) -> Result<FlatDraft, Fail> {
    let mut sketch = Sketch::new(alloc)?;
    sketch.input(128);
    for width in [128, 128, 128, 1] {
        sketch.inner(width);
    }
    let block = sketch.block();
    let given = sketch.bits(range(0, 0, 128));
    let own = sketch.bits(range(1, 0, 128));
    let low = sketch.bits(range(1, 0, 64));
    let high = sketch.bits(range(1, 64, 64));
    let turned = sketch.node(
        128,
        Operation::Concat {
            left: low,
            right: high,
        },
    );
    let sum = sketch.binary(128, Binary::Add, turned, given);
    let product = sketch.binary(128, Binary::Mul, own, given);
    let operation = Operation::Binary {
        operator: Binary::Lt,
        signed: true,
        left: own,
        right: given,
    };
    let less = sketch.node(1, operation);
    let next = sketch.node(
        128,
        Operation::Choose {
            condition: less,
            yes: product,
            no: sum,
        },
    );
    sketch.drive(range(2, 0, 128), sum);
    sketch.drive(range(3, 0, 128), product);
    sketch.drive(range(4, 0, 1), less);
    sketch.register(range(1, 0, 128), block, next, (1 << 127) + 5);
    sketch.draft()
}

/// A counter of 100 bits, each a register part, which begins at 2^70 - 2; a second vector says at which places it
/// turns: each of its 100 driven parts reads the one to the right of it.
pub fn hundred_parts(alloc: Global) -> Result<FlatDraft, Fail> {
    let mut sketch = Sketch::new(alloc)?;
    sketch.inner(100);
    sketch.inner(100);
    let block = sketch.block();
    let mut turns = sketch.constant(1, 1);
    sketch.drive(range(1, 0, 1), turns);
    for low in 0..100u32 {
        let own = sketch.bits(range(0, low, 1));
        let read = sketch.bits(range(1, low, 1));
        let next = sketch.binary(1, Binary::Xor, own, read);
        sketch.register(
            range(0, low, 1),
            block,
            next,
            u128::from(low != 0 && low < 70),
        );
        turns = sketch.binary(1, Binary::And, own, read);
        if low < 99 {
            sketch.drive(range(1, low.saturating_add(1), 1), turns);
        }
    }
    sketch.draft()
}
