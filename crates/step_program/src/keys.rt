//! Keys by which equal steps are found. Nothing is promised of them: what is found by one is compared.

use crate::step::{Calculation, Step};

// The key of all that came before, and of this number.
fn mix(key: u64, value: u64) -> u64 {
    let mixed = (key ^ value).wrapping_mul(0x9e37_79b9_7f4a_7c15);
    mixed ^ (mixed >> 29)
}

fn mix_two(key: u64, first: u32, second: u32) -> u64 {
    mix(key, u64::from(first) << 32 | u64::from(second))
}

fn mix_wide(key: u64, value: u128) -> u64 {
    let low = value & 0xffff_ffff_ffff_ffff;
    mix(mix(key, low as u64), (value >> 64) as u64)
}

/// A number that equal steps have in common; of rare steps only constants have one of their own.
pub(crate) fn key_of(step: &Step) -> u64 {
    match *step {
        Step::And(of) => mix_two(1, of.left, of.right),
        Step::Or(of) => mix_two(2, of.left, of.right),
        Step::Xor(of) => mix_two(3, of.left, of.right),
        Step::Pick(of) => mix(mix_two(4, of.yes, of.no), u64::from(of.condition)),
        Step::Test(of) => mix(
            mix_two(mix(5, of.mask), of.of, of.like),
            u64::from(of.differs),
        ),
        Step::Join(of) => mix_two(mix(6, of.scale), of.high, of.low),
        Step::Take(of) => mix_two(mix(7, of.mask), of.of, of.from),
        Step::Sum(of) => mix_two(mix(8, of.mask), of.left, of.right),
        Step::Rare(of) => match of.calculation {
            Calculation::Constant { value } => mix_wide(mix_two(9, of.width, 0), value),
            _ => 0,
        },
    }
}
