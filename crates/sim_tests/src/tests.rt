//! Designs made by hand against their tables, and designs by chance, all of them beside the reading.

ghost use Rattle.std.specs.Prelude.{◌≡◌, ◌<◌};

use crate::chance::Chance;
use crate::compare::{Outcome, row, run_cycle};
use crate::drafts::draft;
use crate::{by_hand, reading};
use comb_order::order;
use flat_sim::sim::Sim;
use flat_sim::steps::Steps;
use netlist::flat::FlatDraft;
use std::alloc::Global;
use std::marker::Brand;
use std::process::Abort;
use std::sync::ledger::{Blank, Ledger};
use std::test::Fail;

// A cycle of a design made by hand: its row, the words of the first memory in which it begins, the values of its signals,
// and what fires.
struct Told {
    row: &'static [u128],
    words: &'static [u128],
    signals: &'static [u128],
    fired: &'static [(u32, &'static [u8])],
}

static RIPPLE_CARRY: [Told; 4] = [
    Told {
        row: &[0xf, 0],
        words: &[],
        signals: &[0xf, 0, 0x1f, 0],
        fired: &[],
    },
    Told {
        row: &[5, 9],
        words: &[],
        signals: &[5, 9, 3, 15],
        fired: &[],
    },
    Told {
        row: &[0xf, 0xf],
        words: &[],
        signals: &[0xf, 0xf, 0x1f, 15],
        fired: &[],
    },
    Told {
        row: &[0, 0],
        words: &[],
        signals: &[0, 0, 1, 1],
        fired: &[],
    },
];

static TWO_HALVES: [Told; 4] = [
    Told {
        row: &[],
        words: &[],
        signals: &[0x93],
        fired: &[],
    },
    Told {
        row: &[],
        words: &[],
        signals: &[0x49],
        fired: &[],
    },
    Told {
        row: &[],
        words: &[],
        signals: &[0xa4],
        fired: &[],
    },
    Told {
        row: &[],
        words: &[],
        signals: &[0x5a],
        fired: &[],
    },
];

static THREE_WRITES: [Told; 5] = [
    Told {
        row: &[2, 0x5a, 1],
        words: &[0x11, 0x22, 0x33],
        signals: &[2, 0x5a, 1, 0x11],
        fired: &[],
    },
    // of two writes to one word the last one wins at the bits of both
    Told {
        row: &[4, 0xff, 1],
        words: &[0x6a, 0x22, 0x33],
        signals: &[4, 0xff, 1, 0x33],
        fired: &[],
    },
    // outside of the memory nothing is read or written
    Told {
        row: &[7, 0x7f, 1],
        words: &[0x6a, 0x22, 0x77],
        signals: &[7, 0x7f, 1, 0],
        fired: &[],
    },
    Told {
        row: &[3, 1, 0],
        words: &[0x6a, 0x22, 0x77],
        signals: &[3, 1, 0, 0x22],
        fired: &[],
    },
    Told {
        row: &[2, 0, 0],
        words: &[0x6a, 0x22, 0x77],
        signals: &[2, 0, 0, 0x6a],
        fired: &[],
    },
];

static TWO_BLOCKS_THAT_STOP: [Told; 4] = [
    Told {
        row: &[0],
        words: &[],
        signals: &[0],
        fired: &[],
    },
    Told {
        row: &[3],
        words: &[],
        signals: &[3],
        fired: &[(0, b"a=3")],
    },
    Told {
        row: &[9],
        words: &[],
        signals: &[9],
        fired: &[(1, b"a=9 big"), (2, b"1001")],
    },
    Told {
        row: &[10],
        words: &[],
        signals: &[10],
        fired: &[(1, b"a=10 big")],
    },
];

const ALL_ONES: u128 = u128::MAX;

static WIDE_VALUES: [Told; 5] = [
    Told {
        row: &[0],
        words: &[],
        signals: &[0, (1 << 127) + 5, 5 << 64 | 1 << 63, 0, 1],
        fired: &[],
    },
    Told {
        row: &[1],
        words: &[],
        signals: &[1, 0, 1, 0, 1],
        fired: &[],
    },
    Told {
        row: &[ALL_ONES],
        words: &[],
        signals: &[ALL_ONES, 0, ALL_ONES, 0, 0],
        fired: &[],
    },
    Told {
        row: &[1 << 64],
        words: &[],
        signals: &[
            1 << 64,
            ALL_ONES,
            0xffff_ffff_ffff_ffff,
            0xffff_ffff_ffff_ffff << 64,
            1,
        ],
        fired: &[],
    },
    Told {
        row: &[0x1234_5678_9abc_def0_fedc_ba98_7654_3210],
        words: &[],
        signals: &[
            0x1234_5678_9abc_def0_fedc_ba98_7654_3210,
            0xffff_ffff_ffff_ffff << 64,
            0x1234_5678_9abc_def1_fedc_ba98_7654_320f,
            0x0123_4567_89ab_cdf0_0000_0000_0000_0000,
            1,
        ],
        fired: &[],
    },
];

static HUNDRED_PARTS: [Told; 4] = [
    Told {
        row: &[],
        words: &[],
        signals: &[(1 << 70) - 2, 1],
        fired: &[],
    },
    Told {
        row: &[],
        words: &[],
        signals: &[(1 << 70) - 1, (1 << 71) - 1],
        fired: &[],
    },
    Told {
        row: &[],
        words: &[],
        signals: &[1 << 70, 1],
        fired: &[],
    },
    Told {
        row: &[],
        words: &[],
        signals: &[(1 << 70) + 1, 3],
        fired: &[],
    },
];

// The signals have these values, and this fires.
fn is_told<R: Abort>(rt: &R, outcome: &Outcome, told: &Told) {
    assert_eq!(rt; outcome.signals.as_slice(), told.signals);
    assert_eq!(rt; outcome.fired.len(), told.fired.len());
    for (one, (stop, text)) in outcome.fired.iter().zip(told.fired.iter()) {
        assert_eq!(rt; one.stop, *stop);
        assert_eq!(rt; one.message.bytes(), *text);
    }
}

// Runs a design made by hand, cycle by cycle.
fn runs_as_told<R: Abort, L: Ledger>(
    rt: &R,
    alloc: Global,
    draft: FlatDraft,
    cycles: &[Told],
    steps: &mut Steps<L>,
) -> Result<(), Fail> {
    assert!(rt; draft.fits());
    let flat = draft.close();
    let order = order(alloc, &flat)?;
    let mut sim = Sim::start(alloc, &flat, order.parts())?;
    let mut state = reading::start(alloc, &flat)?;
    for told in cycles {
        if let Some(words) = state.memories.first() {
            assert_eq!(rt; words.as_slice(), told.words);
        }
        let outcome = run_cycle(rt, alloc, &mut sim, &state, told.row, steps)?;
        is_told(rt, &outcome, told);
        state = outcome.next;
    }
    Ok(())
}

#[test]
fn designs_made_by_hand_run_as_told(rt: HostRuntime) -> Result<(), Fail> {
    all_run_as_told::<_, Brand>(&rt, rt.alloc(), Blank::new(1))
}

fn all_run_as_told<R: Abort, L: Ledger>(rt: &R, alloc: Global, blank: Blank) -> Result<(), Fail>
    requires name { blank.name ≡ L.name }
    requires parts { (blank.parts ≡ L.parts) × (0 < blank.parts) }
{
    let mut steps = Steps::<L>::new(blank);
    runs_as_told(
        rt,
        alloc,
        by_hand::ripple_carry(alloc)?,
        &RIPPLE_CARRY,
        &mut steps,
    )?;
    runs_as_told(
        rt,
        alloc,
        by_hand::two_halves(alloc)?,
        &TWO_HALVES,
        &mut steps,
    )?;
    runs_as_told(
        rt,
        alloc,
        by_hand::three_writes(alloc)?,
        &THREE_WRITES,
        &mut steps,
    )?;
    runs_as_told(
        rt,
        alloc,
        by_hand::two_blocks_that_stop(alloc)?,
        &TWO_BLOCKS_THAT_STOP,
        &mut steps,
    )?;
    runs_as_told(
        rt,
        alloc,
        by_hand::wide_values(alloc)?,
        &WIDE_VALUES,
        &mut steps,
    )?;
    runs_as_told(
        rt,
        alloc,
        by_hand::hundred_parts(alloc)?,
        &HUNDRED_PARTS,
        &mut steps,
    )
}

const CYCLES: u32 = 8;

// The number of cycles in which an assertion fires, of a draft by chance.
fn runs_as_read<R: Abort, L: Ledger>(
    rt: &R,
    alloc: Global,
    seed: u32,
    steps: &mut Steps<L>,
) -> Result<u32, Fail> {
    let draft = draft(alloc, seed)?;
    assert!(rt; draft.fits(), "draft {seed}");
    let flat = draft.close();
    let order = order(alloc, &flat)?;
    let mut sim = Sim::start(alloc, &flat, order.parts())?;
    let mut state = reading::start(alloc, &flat)?;
    let mut chance = Chance::new(u64::from(seed) ^ 0x5eed);
    let mut firing: u32 = 0;
    for _ in 0..CYCLES {
        let row = row(alloc, &flat, &mut chance)?;
        let outcome = run_cycle(rt, alloc, &mut sim, &state, &row, steps)?;
        firing = firing.saturating_add(u32::from(!outcome.fired.is_empty()));
        state = outcome.next;
    }
    Ok(firing)
}

#[test]
fn designs_by_chance_run_as_read(rt: HostRuntime) -> Result<(), Fail> {
    all_run_as_read::<_, Brand>(&rt, rt.alloc(), Blank::new(1))
}

fn all_run_as_read<R: Abort, L: Ledger>(rt: &R, alloc: Global, blank: Blank) -> Result<(), Fail>
    requires name { blank.name ≡ L.name }
    requires parts { (blank.parts ≡ L.parts) × (0 < blank.parts) }
{
    let mut steps = Steps::<L>::new(blank);
    let mut firing: u32 = 0;
    for seed in 0..300 {
        firing = firing.saturating_add(runs_as_read(rt, alloc, seed, &mut steps)?);
    }
    assert!(rt; firing > 100, "{firing}");
    Ok(())
}
