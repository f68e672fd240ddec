//! What no clause says: that names are found at all. An instance `u` with a generate scope in it, and an instance `v` that is
//! numbered before that scope.

use crate::draft::{ScopeRow, SignalRow, StopRow, design};
use design_names::names::Names;
use design_names::outline::Entry;
use design_names::path::path_text;
use netlist::design::{Role, ScopeKind, SignalKind};
use std::alloc::Global;
use std::test::*;

pub(crate) static SCOPES: [ScopeRow; 4] = [
    ScopeRow {
        parent: None,
        kind: ScopeKind::Instance,
        name: b"top",
    },
    ScopeRow {
        parent: Some(0),
        kind: ScopeKind::Instance,
        name: b"u",
    },
    ScopeRow {
        parent: Some(0),
        kind: ScopeKind::Instance,
        name: b"v",
    },
    ScopeRow {
        parent: Some(1),
        kind: ScopeKind::Generate,
        name: b"g[-1]",
    },
];

pub(crate) static SIGNALS: [SignalRow; 6] = [
    SignalRow {
        scope: Some(0),
        name: b"clk",
        kind: SignalKind::Wire,
        width: 1,
        role: Role::Clock,
    },
    SignalRow {
        scope: Some(3),
        name: b"r",
        kind: SignalKind::Reg,
        width: 128,
        role: Role::Inner,
    },
    SignalRow {
        scope: Some(0),
        name: b"a+b",
        kind: SignalKind::Wire,
        width: 2,
        role: Role::Input(0),
    },
    SignalRow {
        scope: None,
        name: b"t",
        kind: SignalKind::Reg,
        width: 8,
        role: Role::Inner,
    },
    SignalRow {
        scope: Some(2),
        name: b"i",
        kind: SignalKind::Integer,
        width: 32,
        role: Role::Inner,
    },
    SignalRow {
        scope: Some(1),
        name: b"c",
        kind: SignalKind::Wire,
        width: 1,
        role: Role::Clock,
    },
];

pub(crate) static STOPS: [StopRow; 2] = [
    StopRow {
        scope: 3,
        line: 7,
        fatal: false,
    },
    StopRow {
        scope: 0,
        line: 9,
        fatal: true,
    },
];

static OUTLINE: [Entry; 13] = [
    Entry::Scope(0),
    Entry::Signal(0),
    Entry::Signal(2),
    Entry::Scope(1),
    Entry::Signal(5),
    Entry::Scope(3),
    Entry::Signal(1),
    Entry::End,
    Entry::End,
    Entry::Scope(2),
    Entry::Signal(4),
    Entry::End,
    Entry::End,
];

static PATHS: [&[u8]; 4] = [b"top", b"top.u", b"top.v", b"top.u.g[-1]"];

#[test]
fn scopes_and_signals_come_in_order_of_the_tree(rt: HostRuntime) -> Result<(), Fail> {
    let alloc: Global = rt.alloc();
    let found = design(alloc, &SCOPES, &SIGNALS, &[2], &STOPS)?;
    assert!(rt; found.is_some());
    if let Some(flat) = found {
        let names = Names::new(alloc, &flat)?;
        assert_eq!(rt; names.outline(), OUTLINE.as_slice());
        assert_eq!(rt; names.shown(), [0, 2, 5, 1, 4].as_slice());
        assert_eq!(rt; names.stops().len(), 2);
    }
    Ok(())
}

#[test]
fn a_scope_has_a_path_and_an_assertion_a_place(rt: HostRuntime) -> Result<(), Fail> {
    let alloc: Global = rt.alloc();
    let found = design(alloc, &SCOPES, &SIGNALS, &[2], &STOPS)?;
    assert!(rt; found.is_some());
    if let Some(flat) = found {
        for (scope, path) in PATHS.iter().enumerate() {
            if scope < flat.scopes().len() {
                let text = path_text(alloc, &flat, scope as u32)?;
                assert_eq!(rt; text.bytes(), *path);
            }
        }
        let names = Names::new(alloc, &flat)?;
        for (stop, row) in names.stops().iter().zip(STOPS.iter()) {
            assert_eq!(rt; stop.scope, row.scope);
            assert_eq!(rt; stop.place.line, row.line);
            assert_eq!(rt; stop.fatal, row.fatal);
        }
    }
    Ok(())
}
