//! A counter: `r <= r + !hold`, and where `!hold`, `m[r[1:0]] <= {r, r}`; `w` is `m[0]`. A stop where `r == 9`.

use bit_ops::{Binary, Unary};
use dt_core::place::Place;
use dt_core::text::Text;
use netlist::design::{
    Block, DrivenPart, Effect, Event, Index, Memory, MemoryWrite, Range, RegisterPart, Role, Scope,
    ScopeKind, Signal, SignalKind,
};
use netlist::flat::{Flat, FlatDraft};
use netlist::node::{Node, Operation};
use std::alloc::Global;
use std::test::*;

/// The counter; none where its parts don't fit together.
pub(crate) fn counter(alloc: Global) -> Result<Option<Flat>, Fail> {
    let draft = FlatDraft {
        scopes: vec![in alloc;
            Scope {
                parent: None,
                kind: ScopeKind::Instance,
                name: Text::copied(alloc, b"cnt")?,
            },
        ]?,
        signals: signals(alloc)?,
        inputs: [1].to_vec(alloc)?,
        driven: [DrivenPart {
            range: bits(3, 0, 8),
            node: 9,
        }]
        .to_vec(alloc)?,
        registers: [RegisterPart {
            range: bits(2, 0, 4),
            block: 0,
            next: 4,
            initial: 0,
        }]
        .to_vec(alloc)?,
        memories: memories(alloc)?,
        nodes: nodes(alloc)?,
        writes: writes(alloc)?,
        blocks: blocks(alloc)?,
    };
    if draft.fits() {
        Ok(Some(draft.close()))
    } else {
        Ok(None)
    }
}

fn bits(signal: u32, low: u32, width: u32) -> Range {
    Range { signal, low, width }
}

fn signals(alloc: Global) -> Result<Vec<Signal>, Fail> {
    let mut signals = Vec::new(alloc);
    signals.push(signal(alloc, b"clk", SignalKind::Wire, 1, Role::Clock)?)?;
    signals.push(signal(alloc, b"hold", SignalKind::Wire, 1, Role::Input(0))?)?;
    signals.push(signal(alloc, b"r", SignalKind::Reg, 4, Role::Inner)?)?;
    signals.push(signal(alloc, b"w", SignalKind::Wire, 8, Role::Inner)?)?;
    Ok(signals)
}

fn signal(
    alloc: Global,
    name: &[u8],
    kind: SignalKind,
    width: u32,
    role: Role,
) -> Result<Signal, Fail> {
    Ok(Signal {
        scope: Some(0),
        name: Text::copied(alloc, name)?,
        kind,
        width,
        role,
        kept: 0,
    })
}

fn memories(alloc: Global) -> Result<Vec<Memory>, Fail> {
    let mut memories = Vec::new(alloc);
    memories.push(Memory {
        width: 8,
        first: 0,
        last: 3,
        words: [0, 0, 0, 0].to_vec(alloc)?,
        writer: Some(0),
    })?;
    Ok(memories)
}

fn node(width: u32, operation: Operation) -> Node {
    Node { width, operation }
}

fn binary(operator: Binary, left: u32, right: u32) -> Operation {
    Operation::Binary {
        operator,
        signed: false,
        left,
        right,
    }
}

// 0: r; 1: hold; 2: !hold; 3: !hold in four bits; 4: r + !hold; 5: r[1:0]; 6: {r, r}; 7: 0; 8: 9; 9: m[0]; 10: r == 9.
fn nodes(alloc: Global) -> Result<Vec<Node>, Fail> {
    let mut nodes = Vec::new(alloc);
    nodes.push(node(
        4,
        Operation::Bits {
            range: bits(2, 0, 4),
        },
    ))?;
    nodes.push(node(
        1,
        Operation::Bits {
            range: bits(1, 0, 1),
        },
    ))?;
    nodes.push(node(
        1,
        Operation::Unary {
            operator: Unary::LogicNot,
            of: 1,
        },
    ))?;
    nodes.push(node(
        4,
        Operation::Extend {
            signed: false,
            of: 2,
        },
    ))?;
    nodes.push(node(4, binary(Binary::Add, 0, 3)))?;
    nodes.push(node(
        2,
        Operation::Bits {
            range: bits(2, 0, 2),
        },
    ))?;
    nodes.push(node(8, Operation::Concat { left: 0, right: 0 }))?;
    nodes.push(node(1, Operation::Constant { value: 0 }))?;
    nodes.push(node(4, Operation::Constant { value: 9 }))?;
    nodes.push(node(
        8,
        Operation::Word {
            memory: 0,
            index: index(7),
        },
    ))?;
    nodes.push(node(1, binary(Binary::Eq, 0, 8)))?;
    Ok(nodes)
}

fn index(node: u32) -> Index {
    Index {
        node,
        signed: false,
    }
}

fn writes(alloc: Global) -> Result<Vec<MemoryWrite>, Fail> {
    let write = MemoryWrite {
        block: 0,
        condition: 2,
        memory: 0,
        index: index(5),
        place: index(7),
        width: 8,
        value: 6,
    };
    Ok([write].to_vec(alloc)?)
}

fn blocks(alloc: Global) -> Result<Vec<Block>, Fail> {
    let mut events = Vec::new(alloc);
    events.push(Event {
        condition: 10,
        effect: Effect::Stopped(Place { token: 0, line: 8 }, false),
    })?;
    let mut blocks = Vec::new(alloc);
    blocks.push(Block { scope: 0, events })?;
    Ok(blocks)
}
