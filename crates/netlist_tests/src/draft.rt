//! A draft of two blocks, and what may be wrong with it.

use bit_ops::{Binary, Unary};
use dt_core::place::Place;
use dt_core::text::Text;
use netlist::design::{
    Base, Block, DrivenPart, Effect, Event, Index, Memory, MemoryWrite, Range, RegisterPart, Role,
    Scope, ScopeKind, Shown, Signal, SignalKind,
};
use netlist::flat::FlatDraft;
use netlist::node::{Node, Operation};
use std::alloc::Global;
use std::test::Fail;

/// The one thing that is wrong with a draft.
#[derive(Clone, Copy, Debug, PartialEq, Eq)]
pub enum Wrong {
    Nothing,
    TopStandsInAScope,
    ScopeStandsInItself,
    SignalOfNoSuchScope,
    SignalOfNoBits,
    SignalOf129Bits,
    ClockOfTwoBits,
    KeptBitsBeyondTheSignal,
    InputIsNoSuchSignal,
    InputIsTheClock,
    InputOfAnotherNumber,
    DrivenPartOfNoSuchSignal,
    DrivenPartBeyondItsSignal,
    DrivenPartOfNoSuchNode,
    DrivenPartOfAWiderNode,
    DrivenPartOnAnInput,
    DrivenPartOnTheClock,
    DrivenPartsShareABit,
    DrivenPartsOutOfOrder,
    DrivenPartOnARegister,
    RegisterPartBeyondItsSignal,
    RegisterPartOfNoSuchBlock,
    RegisterPartOfAWiderNode,
    RegisterPartsShareABit,
    InitialValueBeyondItsPart,
    MemoryOfNoBits,
    MemoryWithAWordLess,
    WordBeyondTheMemory,
    WriterIsNoSuchBlock,
    WriteByAnotherBlock,
    WriteToNoSuchMemory,
    WriteUnderNoSuchNode,
    WriteOfAWiderNode,
    ConstantBeyondItsWidth,
    NodeReadsItself,
    NodeReadsAHigherOne,
    NodeReadsBeyondASignal,
    NodeReadsNoSuchMemory,
    ConcatOfAnotherWidth,
    OperandsOfTwoWidths,
    ReductionOfTwoBits,
    ExtensionToFewerBits,
    CutToMoreBits,
    InsertOfAnotherWidth,
    ChoiceOfAnotherWidth,
    KeptNodeOfAnotherWidth,
    BlockOfNoSuchScope,
    EventUnderNoSuchNode,
    ShownNodeIsNotThere,
}

impl Wrong {
    // The wrong number where this is what is wrong, else the right one.
    fn pick(self, this: Wrong, wrong: u32, right: u32) -> u32 {
        if self == this { wrong } else { right }
    }

    fn pick_value(self, this: Wrong, wrong: u128, right: u128) -> u128 {
        if self == this { wrong } else { right }
    }
}

fn scopes(alloc: Global, wrong: Wrong) -> Result<Vec<Scope>, Fail> {
    let parent = if wrong == Wrong::TopStandsInAScope {
        Some(0)
    } else {
        None
    };
    let lower = wrong.pick(Wrong::ScopeStandsInItself, 1, 0);
    Ok(vec![in alloc;
        Scope {
            parent,
            kind: ScopeKind::Instance,
            name: Text::new(alloc)?
        },
        Scope {
            parent: Some(lower),
            kind: ScopeKind::Generate,
            name: Text::new(alloc)?
        },
    ]?)
}

fn signal(alloc: Global, width: u32, role: Role, kept: u128) -> Result<Signal, Fail> {
    Ok(Signal {
        scope: Some(1),
        name: Text::new(alloc)?,
        kind: SignalKind::Wire,
        width,
        role,
        kept,
    })
}

// 0 is a clock name, 1 the data input, 2 has driven parts, 3 and 4 register parts, of which 4 stands in no scope.
fn signals(alloc: Global, wrong: Wrong) -> Result<Vec<Signal>, Fail> {
    let clock = wrong.pick(Wrong::ClockOfTwoBits, 2, 1);
    let place = wrong.pick(Wrong::InputOfAnotherNumber, 1, 0);
    let width = wrong.pick(
        Wrong::SignalOfNoBits,
        0,
        wrong.pick(Wrong::SignalOf129Bits, 129, 3),
    );
    let kept = wrong.pick_value(Wrong::KeptBitsBeyondTheSignal, 8, 5);
    let scope = wrong.pick(Wrong::SignalOfNoSuchScope, 2, 1);
    Ok(vec![in alloc;
        signal(alloc, clock, Role::Clock, 0)?,
        signal(alloc, 4, Role::Input(place), 0)?,
        signal(alloc, 4, Role::Inner, 0)?,
        signal(alloc, 4, Role::Inner, 0)?,
        Signal {
            scope: None,
            name: Text::new(alloc)?,
            kind: SignalKind::Reg,
            width: 1,
            role: Role::Inner,
            kept: 0
        },
        signal(alloc, width, Role::Inner, kept)?,
        Signal {
            scope: Some(scope),
            name: Text::new(alloc)?,
            kind: SignalKind::Integer,
            width: 32,
            role: Role::Inner,
            kept: 0
        },
    ]?)
}

fn inputs(alloc: Global, wrong: Wrong) -> Result<Vec<u32>, Fail> {
    let signal = wrong.pick(
        Wrong::InputIsNoSuchSignal,
        7,
        wrong.pick(Wrong::InputIsTheClock, 0, 1),
    );
    Ok(vec![in alloc; signal]?)
}

fn node(width: u32, operation: Operation) -> Node {
    Node { width, operation }
}

fn bits(width: u32, signal: u32, low: u32) -> Node {
    let range = Range { signal, low, width };
    node(width, Operation::Bits { range })
}

fn index(node: u32) -> Index {
    Index {
        node,
        signed: false,
    }
}

fn leaves(wrong: Wrong) -> [Node; 4] {
    [
        bits(2, 1, wrong.pick(Wrong::NodeReadsBeyondASignal, 3, 0)),
        bits(2, 1, 2),
        node(
            1,
            Operation::Constant {
                value: wrong.pick_value(Wrong::ConstantBeyondItsWidth, 2, 1),
            },
        ),
        node(
            8,
            Operation::Word {
                memory: wrong.pick(Wrong::NodeReadsNoSuchMemory, 1, 0),
                index: index(0),
            },
        ),
    ]
}

fn operators(wrong: Wrong) -> [Node; 4] {
    [
        node(
            wrong.pick(Wrong::ConcatOfAnotherWidth, 5, 4),
            Operation::Concat { left: 0, right: 1 },
        ),
        node(
            1,
            Operation::Binary {
                operator: Binary::Eq,
                signed: false,
                left: wrong.pick(
                    Wrong::NodeReadsItself,
                    5,
                    wrong.pick(Wrong::NodeReadsAHigherOne, 6, 0),
                ),
                right: wrong.pick(Wrong::OperandsOfTwoWidths, 2, 1),
            },
        ),
        node(
            wrong.pick(Wrong::ReductionOfTwoBits, 2, 1),
            Operation::Unary {
                operator: Unary::Or,
                of: 0,
            },
        ),
        node(
            wrong.pick(Wrong::ExtensionToFewerBits, 1, 8),
            Operation::Extend {
                signed: true,
                of: 0,
            },
        ),
    ]
}

fn choices(wrong: Wrong) -> [Node; 5] {
    [
        node(
            2,
            Operation::Cut {
                of: wrong.pick(Wrong::CutToMoreBits, 2, 3),
            },
        ),
        node(
            2,
            Operation::Select {
                of: 3,
                place: index(0),
            },
        ),
        node(
            wrong.pick(Wrong::InsertOfAnotherWidth, 2, 8),
            Operation::Insert {
                of: 3,
                place: index(0),
                part: 1,
            },
        ),
        node(
            wrong.pick(Wrong::ChoiceOfAnotherWidth, 1, 2),
            Operation::Choose {
                condition: 5,
                yes: 8,
                no: 9,
            },
        ),
        node(
            wrong.pick(Wrong::KeptNodeOfAnotherWidth, 1, 2),
            Operation::Keep { of: 11, also: 3 },
        ),
    ]
}

fn nodes(alloc: Global, wrong: Wrong) -> Result<Vec<Node>, Fail> {
    let mut nodes = Vec::new(alloc);
    nodes.extend_from_slice(&leaves(wrong))?;
    nodes.extend_from_slice(&operators(wrong))?;
    nodes.extend_from_slice(&choices(wrong))?;
    Ok(nodes)
}

fn range(signal: u32, low: u32) -> Range {
    Range {
        signal,
        low,
        width: 2,
    }
}

fn driven(alloc: Global, wrong: Wrong) -> Result<Vec<DrivenPart>, Fail> {
    let signal = match wrong {
        Wrong::DrivenPartOfNoSuchSignal => 7,
        Wrong::DrivenPartOnAnInput => 1,
        Wrong::DrivenPartOnTheClock => 0,
        Wrong::DrivenPartOnARegister => 3,
        _ => 2,
    };
    let low = match wrong {
        Wrong::DrivenPartBeyondItsSignal => 3,
        Wrong::DrivenPartsShareABit => 1,
        Wrong::DrivenPartsOutOfOrder => 0,
        _ => 2,
    };
    let first = wrong.pick(Wrong::DrivenPartsOutOfOrder, 2, 0);
    let node = wrong.pick(
        Wrong::DrivenPartOfNoSuchNode,
        13,
        wrong.pick(Wrong::DrivenPartOfAWiderNode, 3, 1),
    );
    Ok(vec![in alloc;
        DrivenPart {
            range: range(2, first),
            node: 0
        },
        DrivenPart {
            range: range(signal, low),
            node
        },
    ]?)
}

fn registers(alloc: Global, wrong: Wrong) -> Result<Vec<RegisterPart>, Fail> {
    let low = wrong.pick(
        Wrong::RegisterPartBeyondItsSignal,
        3,
        wrong.pick(Wrong::RegisterPartsShareABit, 1, 2),
    );
    let block = wrong.pick(Wrong::RegisterPartOfNoSuchBlock, 2, 1);
    let next = wrong.pick(Wrong::RegisterPartOfAWiderNode, 3, 12);
    let initial = wrong.pick_value(Wrong::InitialValueBeyondItsPart, 4, 3);
    Ok(vec![in alloc;
        RegisterPart {
            range: range(3, 0),
            block: 0,
            next: 8,
            initial: 0
        },
        RegisterPart {
            range: range(3, low),
            block,
            next,
            initial
        },
        RegisterPart {
            range: Range {
                signal: 4,
                low: 0,
                width: 1
            },
            block: 0,
            next: 5,
            initial: 0
        },
    ]?)
}

fn memories(alloc: Global, wrong: Wrong) -> Result<Vec<Memory>, Fail> {
    let writer = wrong.pick(Wrong::WriterIsNoSuchBlock, 2, 0);
    let last = wrong.pick(Wrong::MemoryWithAWordLess, 4, 3);
    let word = wrong.pick_value(Wrong::WordBeyondTheMemory, 256, 255);
    let width = wrong.pick(Wrong::MemoryOfNoBits, 0, 8);
    Ok(vec![in alloc;
        Memory {
            width,
            first: 5,
            last,
            words: vec![in alloc; word, 0, 0]?,
            writer: Some(writer)
        },
    ]?)
}

fn writes(alloc: Global, wrong: Wrong) -> Result<Vec<MemoryWrite>, Fail> {
    let write = MemoryWrite {
        block: wrong.pick(Wrong::WriteByAnotherBlock, 1, 0),
        condition: wrong.pick(Wrong::WriteUnderNoSuchNode, 13, 5),
        memory: wrong.pick(Wrong::WriteToNoSuchMemory, 1, 0),
        index: index(0),
        place: index(1),
        width: wrong.pick(Wrong::WriteOfAWiderNode, 1, 2),
        value: 0,
    };
    Ok(vec![in alloc; write]?)
}

fn events(alloc: Global, wrong: Wrong) -> Result<Vec<Event>, Fail> {
    let condition = wrong.pick(Wrong::EventUnderNoSuchNode, 13, 5);
    let shown = Shown {
        node: wrong.pick(Wrong::ShownNodeIsNotThere, 13, 4),
        signed: false,
        base: Base::Decimal,
        fewest: true,
    };
    let place = Place { token: 0, line: 1 };
    Ok(vec![in alloc;
        Event {
            condition: 5,
            effect: Effect::Said(Text::new(alloc)?)
        },
        Event {
            condition: 5,
            effect: Effect::Showed(shown)
        },
        Event {
            condition,
            effect: Effect::Stopped(place, false)
        },
    ]?)
}

fn blocks(alloc: Global, wrong: Wrong) -> Result<Vec<Block>, Fail> {
    let scope = wrong.pick(Wrong::BlockOfNoSuchScope, 2, 1);
    Ok(vec![in alloc;
        Block {
            scope: 0,
            events: events(alloc, wrong)?
        },
        Block {
            scope,
            events: Vec::new(alloc)
        },
    ]?)
}

/// A draft of which this is wrong.
pub fn draft(alloc: Global, wrong: Wrong) -> Result<FlatDraft, Fail> {
    Ok(FlatDraft {
        scopes: scopes(alloc, wrong)?,
        signals: signals(alloc, wrong)?,
        inputs: inputs(alloc, wrong)?,
        driven: driven(alloc, wrong)?,
        registers: registers(alloc, wrong)?,
        memories: memories(alloc, wrong)?,
        nodes: nodes(alloc, wrong)?,
        writes: writes(alloc, wrong)?,
        blocks: blocks(alloc, wrong)?,
    })
}
