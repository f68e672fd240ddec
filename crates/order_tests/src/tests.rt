//! Orders and loops of small designs, and of large ones.

use crate::draft::add_part;
use comb_order::answer::{Order, OrderFault};
use comb_order::order;
use draft_maker::DraftMaker;
use netlist::design::Range;
use netlist::flat::FlatDraft;
use std::alloc::Global;
use std::test::Fail;

// Bits of a signal: its number, the lowest place, how many.
type Bits = (u32, u32, u32);

// A design: the widths of its signals, and its driven parts, each with what it reads.
struct Design {
    widths: &'static [u32],
    parts: &'static [(Bits, &'static [Bits])],
    answer: &'static [u32],
}

// Designs with one order each.
static ORDERS: [Design; 5] = [
    // no driven part
    Design {
        widths: &[1],
        parts: &[],
        answer: &[],
    },
    // a carry that goes up through a vector
    Design {
        widths: &[3],
        parts: &[
            ((0, 0, 1), &[]),
            ((0, 1, 1), &[(0, 0, 1)]),
            ((0, 2, 1), &[(0, 1, 1)]),
        ],
        answer: &[0, 1, 2],
    },
    // one that goes down
    Design {
        widths: &[3],
        parts: &[
            ((0, 0, 1), &[(0, 1, 1)]),
            ((0, 1, 1), &[(0, 2, 1)]),
            ((0, 2, 1), &[]),
        ],
        answer: &[2, 1, 0],
    },
    // halves of two vectors
    Design {
        widths: &[8, 8],
        parts: &[
            ((0, 0, 4), &[(1, 4, 4)]),
            ((0, 4, 4), &[]),
            ((1, 0, 4), &[(0, 0, 4)]),
            ((1, 4, 4), &[(0, 4, 4)]),
        ],
        answer: &[1, 3, 0, 2],
    },
    // bits that no part drives are read beside a part
    Design {
        widths: &[4, 4],
        parts: &[((0, 0, 1), &[(1, 0, 4)]), ((1, 1, 2), &[(0, 1, 3)])],
        answer: &[1, 0],
    },
];

// Designs with a loop each.
static LOOPS: [Design; 8] = [
    // two nets that drive each other
    Design {
        widths: &[1, 1],
        parts: &[((0, 0, 1), &[(1, 0, 1)]), ((1, 0, 1), &[(0, 0, 1)])],
        answer: &[0, 1],
    },
    // a whole vector that reads a bit of itself
    Design {
        widths: &[4],
        parts: &[((0, 0, 4), &[(0, 2, 1)])],
        answer: &[0],
    },
    // two ways back of one length: the least next part
    Design {
        widths: &[3],
        parts: &[
            ((0, 0, 1), &[(0, 1, 1), (0, 2, 1)]),
            ((0, 1, 1), &[(0, 0, 1)]),
            ((0, 2, 1), &[(0, 0, 1)]),
        ],
        answer: &[0, 1],
    },
    // the least part that reads itself isn't the least part
    Design {
        widths: &[3],
        parts: &[
            ((0, 0, 1), &[(0, 1, 1)]),
            ((0, 1, 1), &[(0, 2, 1)]),
            ((0, 2, 1), &[(0, 1, 1)]),
        ],
        answer: &[1, 2],
    },
    // the shorter way back, by the higher number
    Design {
        widths: &[4],
        parts: &[
            ((0, 0, 1), &[(0, 1, 2)]),
            ((0, 1, 1), &[(0, 3, 1)]),
            ((0, 2, 1), &[(0, 0, 1)]),
            ((0, 3, 1), &[(0, 0, 1)]),
        ],
        answer: &[0, 2],
    },
    // two loops: the one with the least part
    Design {
        widths: &[4],
        parts: &[
            ((0, 0, 1), &[(0, 2, 1)]),
            ((0, 1, 1), &[(0, 1, 1)]),
            ((0, 2, 1), &[(0, 3, 1)]),
            ((0, 3, 1), &[(0, 2, 1)]),
        ],
        answer: &[1],
    },
    // a part that a loop reads and that reads a loop is in none
    Design {
        widths: &[5],
        parts: &[
            ((0, 0, 1), &[(0, 1, 1)]),
            ((0, 1, 1), &[(0, 2, 1)]),
            ((0, 2, 1), &[(0, 1, 1)]),
            ((0, 3, 1), &[(0, 4, 1), (0, 0, 1)]),
            ((0, 4, 1), &[(0, 3, 1)]),
        ],
        answer: &[1, 2],
    },
    // the shorter way back, over two parts
    Design {
        widths: &[6],
        parts: &[
            ((0, 0, 1), &[(0, 1, 1), (0, 5, 1)]),
            ((0, 1, 1), &[(0, 2, 1)]),
            ((0, 2, 1), &[(0, 0, 1)]),
            ((0, 3, 1), &[(0, 0, 1)]),
            ((0, 4, 1), &[(0, 3, 1), (0, 2, 1)]),
            ((0, 5, 1), &[(0, 4, 1)]),
        ],
        answer: &[0, 1, 2],
    },
];

fn range(bits: Bits) -> Range {
    Range {
        signal: bits.0,
        low: bits.1,
        width: bits.2,
    }
}

fn draft(alloc: Global, design: &Design) -> Result<FlatDraft, Fail> {
    let mut maker = DraftMaker::new(alloc)?;
    for width in design.widths {
        maker.inner(*width)?;
    }
    for (bits, reads) in design.parts {
        let mut ranges = Vec::new(alloc);
        for read in *reads {
            ranges.push(range(*read))?;
        }
        add_part(&mut maker, range(*bits), &ranges)?;
    }
    Ok(maker.draft)
}

// The parts of the order, or else of the loop; none where memory ran out.
fn numbers(answer: &Result<Order, OrderFault>) -> Option<&[u32]> {
    match answer {
        Ok(order) => Some(order.parts()),
        Err(OrderFault::Loop(parts)) => Some(parts.parts()),
        Err(OrderFault::Memory) => None,
    }
}

#[test]
fn small_designs_have_their_orders(rt: HostRuntime) -> Result<(), Fail> {
    for (number, design) in ORDERS.iter().enumerate() {
        let draft = draft(rt.alloc(), design)?;
        assert!(rt; draft.fits(), "{number}");
        let answer = order(rt.alloc(), &draft.close());
        assert!(rt; answer.is_ok(), "{number}");
        assert!(rt; numbers(&answer) == Some(design.answer), "{number}");
    }
    Ok(())
}

#[test]
fn small_designs_have_their_loops(rt: HostRuntime) -> Result<(), Fail> {
    for (number, design) in LOOPS.iter().enumerate() {
        let draft = draft(rt.alloc(), design)?;
        assert!(rt; draft.fits(), "{number}");
        let answer = order(rt.alloc(), &draft.close());
        assert!(rt; answer.is_err(), "{number}");
        assert!(rt; numbers(&answer) == Some(design.answer), "{number}");
    }
    Ok(())
}

// A chain of parts of one bit, 100 to a signal: each reads the one before it, and the first one, if the chain is
// closed, the last.
fn chain(alloc: Global, signals: u32, closed: bool) -> Result<FlatDraft, Fail> {
    let mut maker = DraftMaker::new(alloc)?;
    let mut before = range((signals.saturating_sub(1), 99, 1));
    for signal in 0..signals {
        maker.inner(100)?;
        for low in 0..100 {
            let own = range((signal, low, 1));
            if closed || signal > 0 || low > 0 {
                add_part(&mut maker, own, &[before])?;
            } else {
                add_part(&mut maker, own, &[])?;
            }
            before = own;
        }
    }
    Ok(maker.draft)
}

#[test]
fn a_vector_depends_on_itself_by_parts(rt: HostRuntime) -> Result<(), Fail> {
    let draft = chain(rt.alloc(), 1, false)?;
    assert!(rt; draft.fits());
    let answer = order(rt.alloc(), &draft.close());
    assert!(rt; answer.is_ok());
    let mut next = 0;
    for part in numbers(&answer).unwrap_or(&[]) {
        assert_eq!(rt; *part, next);
        next = next.saturating_add(1);
    }
    assert_eq!(rt; next, 100);
    Ok(())
}

#[test]
fn two_hundred_thousand_nodes_have_an_order(rt: HostRuntime) -> Result<(), Fail> {
    let draft = chain(rt.alloc(), 700, false)?;
    assert!(rt; draft.nodes.len() > 200_000);
    assert!(rt; draft.fits());
    let answer = order(rt.alloc(), &draft.close());
    assert!(rt; answer.is_ok());
    assert_eq!(rt; numbers(&answer).unwrap_or(&[]).len(), 70_000);
    Ok(())
}

#[test]
fn two_hundred_thousand_nodes_are_a_loop(rt: HostRuntime) -> Result<(), Fail> {
    let draft = chain(rt.alloc(), 700, true)?;
    assert!(rt; draft.fits());
    let answer = order(rt.alloc(), &draft.close());
    assert!(rt; answer.is_err());
    let parts = numbers(&answer).unwrap_or(&[]);
    assert_eq!(rt; parts.len(), 70_000);
    assert_eq!(rt; parts.first(), Some(&0));
    assert_eq!(rt; parts.get(1), Some(&69_999));
    Ok(())
}
