//! Declarations with ranges.

ghost use Rattle.std.specs.Prelude.{◌≡◌, ◌++◌, Some, IfOk, OnOk, map};
ghost use Rattle.std.specs.Option.{option_map};
ghost use Rattle.vl_tree.specs.SyntaxView as view;
ghost use Rattle.vl_design.specs.Declarations as design;
ghost use Rattle.vl_design.specs.Spans.{range_needs, optional_span};
ghost use Rattle.vl_constants.specs.Needed.{constants_of, range_tree};
ghost use Rattle.vl_declares.specs.Plain.{Declares, ports, nets as nets_of};

use crate::declared::Declared;
use crate::names::{push_nets, push_ports};
use std::alloc::{AllocError, Global};
use vl_constants::range::span_of;
use vl_found::Found;
use vl_frames::frames::Frames;
use vl_tree::expression::{Name, Range};
use vl_tree::item::{Directed, Net};

/// Declares ports of one direction; the least fault of their range.
pub fn declare_ports<'a>(
    alloc: Global,
    frames: &Frames,
    directed: &'a Directed,
    names: &'a [Name],
    declared: &mut Vec<Declared<'a>>,
) -> Result<Option<Found>, AllocError>
    ensures { let k = constants_of frames.now in let g = view.directed directed.now in
        let ds = map (design.directed_port k g) (map view.name names.now) in
        IfOk result (λ f. Declares declared.old.items ds (range_needs k g.range) declared.new.items f) }
{
    let ranged = span_of(alloc, frames, directed.range.as_ref())?;
    push_ports(directed, ranged.span, names, declared)?;
    Ok(ranged.fault)
}

/// Declares nets; the least fault of their range.
pub fn declare_nets<'a>(
    alloc: Global,
    frames: &Frames,
    signed: bool,
    range: Option<&Range>,
    nets: &'a [Net],
    declared: &mut Vec<Declared<'a>>,
) -> Result<Option<Found>, AllocError>
    ensures { let k = constants_of frames.now in let r = range_tree range.entry in
        let ds = nets_of signed (optional_span k r) (map view.net nets.now) in
        IfOk result (λ f. Declares declared.old.items ds (range_needs k r) declared.new.items f) }
{
    let ranged = span_of(alloc, frames, range)?;
    push_nets(signed, ranged.span, nets, declared)?;
    Ok(ranged.fault)
}
