//! One step of each kind, over two narrow slots and a wide one.

ghost use Rattle.std.specs.Prelude.{◌≡◌, IfOk, MatchOption};

use bit_ops::{Binary, Unary};
use std::alloc::Global;
use std::test::Fail;
use step_program::builder::Builder;
use step_program::step::{
    Calculation, Join, Number, Operand, Pick, Rare, Slot, Step, Sum, Take, Test, Two,
};
use step_program::words::MemoryWords;

// A step and its value over the given numbers.
struct Row {
    kind: Kind,
    x: u64,
    y: u64,
    z: u128,
    value: u128,
}

#[derive(Clone, Copy)]
enum Kind {
    And,
    Or,
    Xor,
    Pick,
    Same,
    Differ,
    Masked,
    Join,
    Take,
    Sum,
    Product,
    Minus,
    Wider,
    Select,
    Concat,
    Word,
}

const X: Operand = Operand {
    slot: Slot::Narrow(0),
    width: 8,
};

const Y: Operand = Operand {
    slot: Slot::Narrow(1),
    width: 8,
};

const Z: Operand = Operand {
    slot: Slot::Wide(0),
    width: 100,
};

fn number(of: Operand, signed: bool) -> Number
    ensures { (result.of ≡ of) × (result.signed ≡ signed) }
{
    Number { of, signed }
}

// The step of a fast kind; none for another.
fn fast(builder: &mut Builder, kind: Kind) -> Result<Option<Slot>, Fail>
    requires { (builder.old.narrow ≡ 2) × (builder.old.wide ≡ 1) }
    ensures { IfOk result (λ slot. MatchOption slot (builder.new ≡ builder.old) (λ s. Unit {0})) }
{
    Ok(Some(match kind {
        Kind::And => builder.push(Step::And(Two { left: 0, right: 1 }))?,
        Kind::Or => builder.push(Step::Or(Two { left: 0, right: 1 }))?,
        Kind::Xor => builder.push(Step::Xor(Two { left: 0, right: 1 }))?,
        Kind::Pick => builder.push(Step::Pick(Pick {
            condition: 0,
            yes: 1,
            no: 0,
        }))?,
        Kind::Same => builder.push(Step::Test(Test::same(0, 1)))?,
        Kind::Differ => builder.push(Step::Test(Test::differ(0, 1)))?,
        Kind::Masked => builder.push(Step::Test(Test {
            of: 0,
            like: 1,
            mask: 0xf0,
            differs: false,
        }))?,
        Kind::Join => builder.push(Step::Join(Join::to_left(0, 1, 8)))?,
        Kind::Take => builder.push(Step::Take(Take::bits(0, 2, 3)))?,
        Kind::Sum => builder.push(Step::Sum(Sum::modulo(0, 1, 8)))?,
        _ => return Ok(None),
    }))
}

// The step of a rare kind.
fn rare(builder: &mut Builder, kind: Kind) -> Result<Slot, Fail>
    requires { (builder.old.narrow ≡ 2) × (builder.old.wide ≡ 1) }
{
    Ok(match kind {
        Kind::Product => builder.push(Step::Rare(Rare {
            width: 8,
            calculation: Calculation::Binary {
                operator: Binary::Mul,
                signed: false,
                left: X,
                right: Y,
            },
        }))?,
        Kind::Minus => builder.push(Step::Rare(Rare {
            width: 100,
            calculation: Calculation::Unary {
                operator: Unary::Minus,
                of: Z,
            },
        }))?,
        Kind::Wider => builder.push(Step::Rare(Rare {
            width: 16,
            calculation: Calculation::Extend {
                signed: true,
                of: X,
            },
        }))?,
        Kind::Select => builder.push(Step::Rare(Rare {
            width: 6,
            calculation: Calculation::Select {
                of: Z,
                place: number(X, true),
            },
        }))?,
        Kind::Concat => builder.push(Step::Rare(Rare {
            width: 108,
            calculation: Calculation::Concat { left: X, right: Z },
        }))?,
        _ => builder.push(Step::Rare(Rare {
            width: 16,
            calculation: Calculation::Word {
                memory: 0,
                least: 2,
                index: number(X, false),
            },
        }))?,
    })
}

static ROWS: [Row; 26] = [
    Row {
        kind: Kind::And,
        x: 17361641481138401520,
        y: 18446744073709551615,
        z: 0,
        value: 17361641481138401520,
    },
    Row {
        kind: Kind::And,
        x: 12,
        y: 10,
        z: 0,
        value: 8,
    },
    Row {
        kind: Kind::Or,
        x: 12,
        y: 10,
        z: 0,
        value: 14,
    },
    Row {
        kind: Kind::Or,
        x: 18446744073709551615,
        y: 1,
        z: 0,
        value: 18446744073709551615,
    },
    Row {
        kind: Kind::Xor,
        x: 12,
        y: 10,
        z: 0,
        value: 6,
    },
    Row {
        kind: Kind::Pick,
        x: 0,
        y: 7,
        z: 0,
        value: 0,
    },
    Row {
        kind: Kind::Pick,
        x: 9223372036854775808,
        y: 7,
        z: 0,
        value: 7,
    },
    Row {
        kind: Kind::Same,
        x: 18446744073709551615,
        y: 18446744073709551615,
        z: 0,
        value: 1,
    },
    Row {
        kind: Kind::Same,
        x: 18446744073709551615,
        y: 18446744073709551614,
        z: 0,
        value: 0,
    },
    Row {
        kind: Kind::Differ,
        x: 9223372036854775808,
        y: 0,
        z: 0,
        value: 1,
    },
    Row {
        kind: Kind::Differ,
        x: 5,
        y: 5,
        z: 0,
        value: 0,
    },
    Row {
        kind: Kind::Masked,
        x: 303,
        y: 32,
        z: 0,
        value: 1,
    },
    Row {
        kind: Kind::Masked,
        x: 303,
        y: 47,
        z: 0,
        value: 0,
    },
    Row {
        kind: Kind::Join,
        x: 171,
        y: 205,
        z: 0,
        value: 43981,
    },
    Row {
        kind: Kind::Take,
        x: 180,
        y: 0,
        z: 0,
        value: 5,
    },
    Row {
        kind: Kind::Sum,
        x: 200,
        y: 100,
        z: 0,
        value: 44,
    },
    Row {
        kind: Kind::Product,
        x: 20,
        y: 13,
        z: 0,
        value: 4,
    },
    Row {
        kind: Kind::Minus,
        x: 0,
        y: 0,
        z: 1,
        value: 1267650600228229401496703205375,
    },
    Row {
        kind: Kind::Wider,
        x: 128,
        y: 0,
        z: 0,
        value: 65408,
    },
    Row {
        kind: Kind::Select,
        x: 3,
        y: 0,
        z: 240,
        value: 30,
    },
    Row {
        kind: Kind::Select,
        x: 255,
        y: 0,
        z: 13,
        value: 26,
    },
    Row {
        kind: Kind::Concat,
        x: 171,
        y: 0,
        z: 633825300114114700748351602693,
        value: 217402077939141342356684599721989,
    },
    Row {
        kind: Kind::Word,
        x: 2,
        y: 0,
        z: 0,
        value: 7,
    },
    Row {
        kind: Kind::Word,
        x: 4,
        y: 0,
        z: 0,
        value: 13,
    },
    Row {
        kind: Kind::Word,
        x: 5,
        y: 0,
        z: 0,
        value: 0,
    },
    Row {
        kind: Kind::Word,
        x: 1,
        y: 0,
        z: 0,
        value: 0,
    },
];

// The step's value, where these numbers are given.
fn value(alloc: Global, row: &Row) -> Result<u128, Fail> {
    let mut builder = Builder::new(alloc, 2, 1)?;
    let slot = match fast(&mut builder, row.kind)? {
        Some(slot) => slot,
        None => rare(&mut builder, row.kind)?,
    };
    let closed = builder.close(alloc)?;
    let mut slots = closed.program.start(alloc)?;
    closed.program.give_narrow(&mut slots, 0, row.x);
    closed.program.give_narrow(&mut slots, 1, row.y);
    closed.program.give_wide(&mut slots, 0, row.z);
    let words = vec![in alloc; MemoryWords::Narrow(vec![in alloc; 7, 11, 13]?)]?;
    closed.program.run(&words, &mut slots);
    Ok(slots.value(closed.placement.slot(slot)))
}

#[test]
fn each_kind_has_its_value(rt: HostRuntime) -> Result<(), Fail> {
    for row in &ROWS {
        let found = value(rt.alloc(), row)?;
        assert_eq!(rt; found, row.value);
    }
    Ok(())
}
