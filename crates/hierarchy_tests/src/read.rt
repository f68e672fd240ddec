//! A text as a source, and what a module of it declares by itself.

use std::alloc::{AllocError, Global};
use std::test::Fail;
use vl_connections::header::ports_of;
use vl_declares::declared::Declared;
use vl_declares::header::declare_header;
use vl_declares::header_ports::declare_header_ports;
use vl_declares::item::declare_item;
use vl_found::Found;
use vl_frames::frames::Frames;
use vl_frames::notes::enter_items;
use vl_source::parse_source;
use vl_tree::fault::FaultKind;
use vl_tree::item::{Module, Source};

/// A text, and the token and the kind of its least fault, if it has one.
pub struct Row {
    pub text: &'static [u8],
    pub fault: Option<(u32, FaultKind)>,
}

/// The source that a text is.
pub fn source_of(alloc: Global, text: &[u8]) -> Result<Source, Fail> {
    if text.len() > 1_000_000 {
        return Err("a long text".into());
    }
    let clean = vl_pre::preprocess(alloc, text)?;
    let tokens = vl_lex::lex(alloc, &clean)?;
    if tokens.len() > 1_000_000 {
        return Err("many tokens".into());
    }
    match parse_source(alloc, &tokens) {
        Ok(source) => Ok(source),
        Err(_) => Err("no source".into()),
    }
}

/// What a module declares whose items hold no others.
pub fn declared_by<'a>(alloc: Global, parent: &'a Module) -> Result<Vec<Declared<'a>>, AllocError> {
    let mut frames = Frames::new(alloc);
    let items = parent.items.as_slice();
    enter_items(alloc, &mut frames, items)?;
    let mut declared = Vec::new(alloc);
    declare_header(
        alloc,
        &mut frames,
        &[],
        parent.parameters.as_slice(),
        &mut declared,
    )?;
    declare_header_ports(alloc, &frames, ports_of(parent), &mut declared)?;
    for item in items {
        declare_item(alloc, &mut frames, &[], item, &mut declared)?;
    }
    Ok(declared)
}

/// Whether a fault is that of a row.
pub fn is_told(found: Option<Found>, row: &Row) -> bool {
    match (found, row.fault) {
        (None, None) => true,
        (Some(found), Some((token, kind))) => found.place.token == token && found.kind == kind,
        _ => false,
    }
}
