//! Operators as compiled, at the edges of machine numbers: what they give is proved, and worked values are proved of the
//! definitions.

use bit_ops::{Binary, Unary, binary, insert, select, unary};
use dt_core::bits::Bits;
use std::process::Abort;

// A width at which machine numbers end, its number of sign bit alone, and its greatest number.
#[derive(Clone, Copy)]
struct Edge {
    width: u32,
    least: u128,
    ones: u128,
}

static EDGES: [Edge; 5] = [
    Edge {
        width: 1,
        least: 1,
        ones: 1,
    },
    Edge {
        width: 64,
        least: 0x8000_0000_0000_0000,
        ones: 0xffff_ffff_ffff_ffff,
    },
    Edge {
        width: 65,
        least: 0x1_0000_0000_0000_0000,
        ones: 0x1_ffff_ffff_ffff_ffff,
    },
    Edge {
        width: 127,
        least: 0x4000_0000_0000_0000_0000_0000_0000_0000,
        ones: 0x7fff_ffff_ffff_ffff_ffff_ffff_ffff_ffff,
    },
    Edge {
        width: 128,
        least: 0x8000_0000_0000_0000_0000_0000_0000_0000,
        ones: u128::MAX,
    },
];

// A number at an edge: of a value, or a distance of shift.
#[derive(Clone, Copy)]
enum Number {
    Zero,
    One,
    Least,
    Ones,
    Top,
    Width,
    Far,
}

use Number::{Far, Least, One, Ones, Top, Width, Zero};

fn value_of(edge: &Edge, number: Number) -> u128 {
    match number {
        Zero => 0,
        One => 1,
        Least => edge.least,
        Ones => edge.ones,
        Top => u128::from(edge.width).saturating_sub(1),
        Width => u128::from(edge.width),
        Far => u128::MAX,
    }
}

static OF_TWO: [(Binary, bool, Number, Number, Number); 10] = [
    (Binary::Div, true, Least, Ones, Least),
    (Binary::Rem, true, Least, Ones, Zero),
    (Binary::Div, false, Ones, Ones, One),
    (Binary::Div, false, Ones, Zero, Zero),
    (Binary::Add, false, Ones, One, Zero),
    (Binary::Sub, false, Zero, One, Ones),
    (Binary::Mul, true, Ones, Ones, One),
    (Binary::Lt, true, Least, Zero, One),
    (Binary::Lt, false, Least, Zero, Zero),
    (Binary::Xnor, false, Least, Least, Ones),
];

static SHIFTS: [(Binary, bool, Number, Number, Number); 8] = [
    (Binary::Shl, false, One, Top, Least),
    (Binary::Shl, false, Ones, Width, Zero),
    (Binary::Shl, false, Ones, Far, Zero),
    (Binary::Shr, false, Least, Top, One),
    (Binary::Shr, false, Ones, Width, Zero),
    (Binary::Sar, true, Least, Top, Ones),
    (Binary::Sar, true, Least, Far, Ones),
    (Binary::Sar, false, Least, Width, Zero),
];

static OF_ONE: [(Unary, Number, Number); 6] = [
    (Unary::Minus, Least, Least),
    (Unary::Minus, Ones, One),
    (Unary::Not, Zero, Ones),
    (Unary::And, Ones, One),
    (Unary::Nor, Least, Zero),
    (Unary::Xor, Least, One),
];

#[test]
fn operators_hold_at_the_edges_of_machine_numbers(rt: HostRuntime) {
    for edge in &EDGES {
        two_operands(&rt, edge);
        shifts(&rt, edge);
        one_operand(&rt, edge);
    }
}

fn two_operands(rt: &impl Abort, edge: &Edge) {
    for (op, signed, a, b, value) in &OF_TWO {
        let got = of_two(
            *op,
            *signed,
            edge.width,
            value_of(edge, *a),
            value_of(edge, *b),
        );
        assert_eq!(rt;
            got,
            Some(value_of(edge, *value)),
            "{op:?} {signed} {}",
            edge.width
        );
    }
}

fn shifts(rt: &impl Abort, edge: &Edge) {
    for (op, signed, a, b, value) in &SHIFTS {
        let got = moved(
            *op,
            *signed,
            edge.width,
            value_of(edge, *a),
            value_of(edge, *b),
        );
        assert_eq!(rt;
            got,
            Some(value_of(edge, *value)),
            "{op:?} {signed} {}",
            edge.width
        );
    }
}

fn one_operand(rt: &impl Abort, edge: &Edge) {
    for (op, a, value) in &OF_ONE {
        let got = of_one(*op, edge.width, value_of(edge, *a));
        assert_eq!(rt; got, Some(value_of(edge, *value)), "{op:?} {}", edge.width);
    }
}

// A width, a value, a place, and what the 128 bits from there are.
static SELECTED: [(u32, u128, i64, u128); 6] = [
    (4, 10, 3, 1),
    (4, 5, -1, 10),
    (128, u128::MAX, 127, 1),
    (128, u128::MAX, -127, 1 << 127),
    (128, u128::MAX, 128, 0),
    (128, u128::MAX, i64::MIN, 0),
];

// A width, a value, a place, and what it is with 128 bits of 1 from there.
static INSERTED: [(u32, u128, i64, u128); 6] = [
    (4, 1, 3, 9),
    (128, 0, 1, u128::MAX - 1),
    (128, 0, -1, u128::MAX >> 1),
    (128, 7, 128, 7),
    (128, 7, -128, 7),
    (128, 7, i64::MAX, 7),
];

#[test]
fn places_may_lie_outside(rt: HostRuntime) {
    for (width, a, place, value) in &SELECTED {
        assert_eq!(rt;
            selected(*width, *a, *place),
            Some(*value),
            "{width} {a} {place}"
        );
    }
    for (width, a, place, value) in &INSERTED {
        assert_eq!(rt;
            inserted(*width, *a, *place),
            Some(*value),
            "{width} {a} {place}"
        );
    }
}

fn of_two(op: Binary, signed: bool, width: u32, a: u128, b: u128) -> Option<u128> {
    let a = Bits::new(width, a)?;
    let b = Bits::new(width, b)?;
    Some(binary(op, a, b, signed).value())
}

// A shift, by a distance of 128 bits.
fn moved(op: Binary, signed: bool, width: u32, a: u128, distance: u128) -> Option<u128> {
    let a = Bits::new(width, a)?;
    let b = Bits::new(128, distance)?;
    match op {
        Binary::Shl | Binary::Shr | Binary::Sar => Some(binary(op, a, b, signed).value()),
        _ => None,
    }
}

fn of_one(op: Unary, width: u32, a: u128) -> Option<u128> {
    Some(unary(op, Bits::new(width, a)?).value())
}

fn selected(width: u32, a: u128, place: i64) -> Option<u128> {
    Some(select(Bits::new(width, a)?, place, 128).value())
}

fn inserted(width: u32, a: u128, place: i64) -> Option<u128> {
    let part = Bits::new(128, u128::MAX)?;
    Some(insert(Bits::new(width, a)?, place, part).value())
}
