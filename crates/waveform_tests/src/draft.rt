//! Designs of which only scopes, signals and blocks matter.

use dt_core::place::Place;
use dt_core::text::Text;
use netlist::design::{Block, Effect, Event, Role, Scope, ScopeKind, Signal, SignalKind};
use netlist::flat::{Flat, FlatDraft};
use netlist::node::{Node, Operation};
use std::alloc::Global;
use std::test::*;

/// A scope: its parent, its kind, its name.
pub(crate) struct ScopeRow {
    pub(crate) parent: Option<u32>,
    pub(crate) kind: ScopeKind,
    pub(crate) name: &'static [u8],
}

/// A signal: its scope, its name, its kind, its width, its role.
pub(crate) struct SignalRow {
    pub(crate) scope: Option<u32>,
    pub(crate) name: &'static [u8],
    pub(crate) kind: SignalKind,
    pub(crate) width: u32,
    pub(crate) role: Role,
}

/// An assertion in a block of its own: the scope, the line, whether it is spelt `$fatal`.
pub(crate) struct StopRow {
    pub(crate) scope: u32,
    pub(crate) line: u32,
    pub(crate) fatal: bool,
}

/// A design of these scopes, signals and assertions; none where they don't fit together.
pub(crate) fn design(
    alloc: Global,
    scopes: &[ScopeRow],
    signals: &[SignalRow],
    inputs: &[u32],
    stops: &[StopRow],
) -> Result<Option<Flat>, Fail> {
    let draft = FlatDraft {
        scopes: scopes_of(alloc, scopes)?,
        signals: signals_of(alloc, signals)?,
        inputs: inputs.to_vec(alloc)?,
        driven: Vec::new(alloc),
        registers: Vec::new(alloc),
        memories: Vec::new(alloc),
        nodes: vec![in alloc;
            Node {
                width: 1,
                operation: Operation::Constant { value: 1 }
            },
        ]?,
        writes: Vec::new(alloc),
        blocks: blocks_of(alloc, stops)?,
    };
    if draft.fits() {
        Ok(Some(draft.close()))
    } else {
        Ok(None)
    }
}

fn scopes_of(alloc: Global, rows: &[ScopeRow]) -> Result<Vec<Scope>, Fail> {
    let mut scopes = Vec::new(alloc);
    for row in rows {
        scopes.push(Scope {
            parent: row.parent,
            kind: row.kind,
            name: Text::copied(alloc, row.name)?,
        })?;
    }
    Ok(scopes)
}

fn signals_of(alloc: Global, rows: &[SignalRow]) -> Result<Vec<Signal>, Fail> {
    let mut signals = Vec::new(alloc);
    for row in rows {
        signals.push(Signal {
            scope: row.scope,
            name: Text::copied(alloc, row.name)?,
            kind: row.kind,
            width: row.width,
            role: row.role,
            kept: 0,
        })?;
    }
    Ok(signals)
}

fn blocks_of(alloc: Global, rows: &[StopRow]) -> Result<Vec<Block>, Fail> {
    let mut blocks = Vec::new(alloc);
    for row in rows {
        let place = Place {
            token: 0,
            line: row.line,
        };
        let mut events = Vec::new(alloc);
        events.push(Event {
            condition: 0,
            effect: Effect::Stopped(place, row.fatal),
        })?;
        blocks.push(Block {
            scope: row.scope,
            events,
        })?;
    }
    Ok(blocks)
}
