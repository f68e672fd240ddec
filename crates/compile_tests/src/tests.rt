//! Designs of constants alone, so that no slot is given.

use bit_ops::{Binary, Unary};
use comb_order::order;
use draft_maker::{DraftMaker, range};
use net_compile::compile;
use net_compile::compiled::Compiled;
use netlist::design::{Index, Range, Role};
use netlist::flat::{Flat, FlatDraft};
use netlist::node::Operation;
use std::alloc::Global;
use std::test::Fail;

// The program of a draft that fits and has an order.
fn program(alloc: Global, draft: FlatDraft) -> Result<Option<Compiled>, Fail> {
    if !draft.fits() {
        return Ok(None);
    }
    let flat = draft.close();
    match order(alloc, &flat) {
        Ok(order) => match compile(alloc, &flat, order.parts()) {
            Ok(compiled) => Ok(Some(compiled)),
            Err(_) => Ok(None),
        },
        Err(_) => Ok(None),
    }
}

// The widths and operations of nodes, and their values: signal 0 of 8 bits keeps 1010 at the left, and at the right has
// node 3; signal 1 of 8 bits has node 1 at the left, and keeps 0110 at the right; signal 2 of 100 bits keeps all.
static NODES: [(u32, Operation, u128); 20] = [
    (
        4,
        Operation::Bits {
            range: Range {
                signal: 1,
                low: 4,
                width: 4,
            },
        },
        9,
    ),
    (4, Operation::Constant { value: 9 }, 9),
    (4, Operation::Constant { value: 3 }, 3),
    (
        4,
        Operation::Binary {
            operator: Binary::Xor,
            signed: false,
            left: 0,
            right: 2,
        },
        10,
    ),
    (
        8,
        Operation::Bits {
            range: Range {
                signal: 0,
                low: 0,
                width: 8,
            },
        },
        0xaa,
    ),
    (
        8,
        Operation::Bits {
            range: Range {
                signal: 1,
                low: 0,
                width: 8,
            },
        },
        0x96,
    ),
    (16, Operation::Concat { left: 4, right: 5 }, 0xaa96),
    (
        6,
        Operation::Bits {
            range: Range {
                signal: 0,
                low: 1,
                width: 6,
            },
        },
        0x15,
    ),
    (
        8,
        Operation::Unary {
            operator: Unary::Not,
            of: 4,
        },
        0x55,
    ),
    (
        1,
        Operation::Unary {
            operator: Unary::LogicNot,
            of: 4,
        },
        0,
    ),
    (
        1,
        Operation::Binary {
            operator: Binary::Ne,
            signed: false,
            left: 4,
            right: 8,
        },
        1,
    ),
    (
        8,
        Operation::Choose {
            condition: 10,
            yes: 8,
            no: 4,
        },
        0x55,
    ),
    (4, Operation::Cut { of: 6 }, 6),
    (
        16,
        Operation::Extend {
            signed: true,
            of: 4,
        },
        0xffaa,
    ),
    (
        16,
        Operation::Extend {
            signed: false,
            of: 4,
        },
        0xaa,
    ),
    (
        4,
        Operation::Select {
            of: 6,
            place: Index {
                node: 2,
                signed: false,
            },
        },
        2,
    ),
    (
        100,
        Operation::Bits {
            range: Range {
                signal: 2,
                low: 0,
                width: 100,
            },
        },
        5,
    ),
    (
        108,
        Operation::Concat { left: 4, right: 16 },
        (0xaa << 100) + 5,
    ),
    (8, Operation::Keep { of: 4, also: 0 }, 0xaa),
    (
        8,
        Operation::Binary {
            operator: Binary::Add,
            signed: false,
            left: 4,
            right: 8,
        },
        0xff,
    ),
];

fn constants(alloc: Global) -> Result<FlatDraft, Fail> {
    let mut maker = DraftMaker::new(alloc)?;
    maker.signal(8, Role::Inner, 0xa0)?;
    maker.signal(8, Role::Inner, 6)?;
    maker.signal(100, Role::Inner, 5)?;
    for (width, operation, _) in &NODES {
        maker.node(*width, *operation)?;
    }
    maker.drive(range(0, 0, 4), 3)?;
    maker.drive(range(1, 4, 4), 1)?;
    Ok(maker.draft)
}

#[test]
fn each_node_has_its_value(rt: HostRuntime) -> Result<(), Fail> {
    let alloc = rt.alloc();
    let compiled = program(alloc, constants(alloc)?)?;
    assert!(rt; compiled.is_some());
    if let Some(compiled) = compiled {
        let mut slots = compiled.program().start(alloc)?;
        compiled.program().run(&[], &mut slots);
        for (number, slot) in compiled.nodes().iter().enumerate() {
            let value = slots.value(*slot);
            assert!(rt;
                NODES.get(number).is_some_and(|row| row.2 == value),
                "{number} {value}"
            );
        }
        assert_eq!(rt; compiled.nodes().len(), NODES.len());
    }
    Ok(())
}

// A chain of parts of one bit, 100 to a signal: each has the one after it, and the last a constant.
fn chain(alloc: Global, signals: u32) -> Result<FlatDraft, Fail> {
    let mut maker = DraftMaker::new(alloc)?;
    for signal in 0..signals {
        maker.inner(100)?;
        for low in 0..100u32 {
            let next = if low < 99 {
                range(signal, low + 1, 1)
            } else {
                range(signal.saturating_add(1), 0, 1)
            };
            let last = signal.saturating_add(1) == signals && low == 99;
            let operation = if last {
                Operation::Constant { value: 1 }
            } else {
                Operation::Bits { range: next }
            };
            let node = maker.node(1, operation)?;
            maker.drive(range(signal, low, 1), node)?;
        }
    }
    Ok(maker.draft)
}

#[test]
fn a_chain_against_the_numbers_of_nodes(rt: HostRuntime) -> Result<(), Fail> {
    let alloc = rt.alloc();
    let compiled = program(alloc, chain(alloc, 20)?)?;
    assert!(rt; compiled.is_some());
    if let Some(compiled) = compiled {
        let mut slots = compiled.program().start(alloc)?;
        compiled.program().run(&[], &mut slots);
        assert_eq!(rt; compiled.nodes().len(), 2_000);
        for slot in compiled.nodes() {
            assert_eq!(rt; slots.value(*slot), 1);
        }
    }
    Ok(())
}
