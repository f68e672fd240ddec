//! A draft at its limits fits, and one beyond them doesn't.

use crate::draft::{Wrong, draft};
use dt_core::limits::{MAX_INPUT_BITS, MAX_INPUTS, MAX_SIGNALS, MAX_WORDS};
use dt_core::text::Text;
use netlist::design::{Memory, Role, Signal, SignalKind};
use netlist::flat::FlatDraft;
use std::alloc::Global;
use std::test::Fail;

// A draft with so many more signals, which stand in a scope or in none.
fn with_signals(alloc: Global, more: u32, scope: Option<u32>) -> Result<FlatDraft, Fail> {
    let mut draft = draft(alloc, Wrong::Nothing)?;
    for _ in 0..more {
        draft.signals.push(Signal {
            scope,
            name: Text::new(alloc)?,
            kind: SignalKind::Wire,
            width: 1,
            role: Role::Inner,
            kept: 0,
        })?;
    }
    Ok(draft)
}

// A draft with so many data inputs behind its first one, of this width.
fn with_inputs(alloc: Global, more: u32, width: u32) -> Result<FlatDraft, Fail> {
    let mut draft = draft(alloc, Wrong::Nothing)?;
    let mut number = 7;
    for input in 0..more {
        draft.signals.push(Signal {
            scope: Some(0),
            name: Text::new(alloc)?,
            kind: SignalKind::Wire,
            width,
            role: Role::Input(input.saturating_add(1)),
            kept: 0,
        })?;
        draft.inputs.push(number)?;
        number = number.saturating_add(1);
    }
    Ok(draft)
}

// A draft with a constant memory of so many words beside its own of three.
fn with_words(alloc: Global, more: u32) -> Result<FlatDraft, Fail> {
    let mut draft = draft(alloc, Wrong::Nothing)?;
    draft.memories.push(Memory {
        width: 128,
        first: 0,
        last: more.saturating_sub(1),
        words: vec![in alloc; 0u128; more as usize]?,
        writer: None,
    })?;
    Ok(draft)
}

#[test]
fn signals_are_counted_where_they_stand_in_a_scope(rt: HostRuntime) -> Result<(), Fail> {
    // of the draft's seven signals six stand in a scope
    let cases = [(MAX_SIGNALS - 6, true), (MAX_SIGNALS - 5, false)];
    for (more, fits) in cases {
        assert_eq!(rt;
            with_signals(rt.alloc(), more, Some(0))?.fits(),
            fits,
            "{more}"
        );
        assert!(rt; with_signals(rt.alloc(), more, None)?.fits(), "{more}");
    }
    Ok(())
}

#[test]
fn inputs_and_their_bits_are_counted(rt: HostRuntime) -> Result<(), Fail> {
    // the draft's own input has four bits
    let cases = [
        (MAX_INPUTS - 1, 1, true),
        (MAX_INPUTS, 1, false),
        ((MAX_INPUT_BITS - 4) / 124, 124, true),
        ((MAX_INPUT_BITS - 4) / 124, 125, false),
    ];
    for (more, width, fits) in cases {
        assert_eq!(rt;
            with_inputs(rt.alloc(), more, width)?.fits(),
            fits,
            "{more} of {width}"
        );
    }
    Ok(())
}

#[test]
fn words_are_counted(rt: HostRuntime) -> Result<(), Fail> {
    for (more, fits) in [(MAX_WORDS - 3, true), (MAX_WORDS - 2, false)] {
        assert_eq!(rt; with_words(rt.alloc(), more)?.fits(), fits, "{more}");
    }
    Ok(())
}
