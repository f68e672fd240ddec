//! Declarations of the items that hold no others.

ghost use Rattle.std.specs.Prelude.{◌≡◌, [], if◌then◌else◌, IfOk, map};
ghost use Rattle.vl_tree.specs.SyntaxView as view;
ghost use Rattle.vl_constants.specs.Needed.{constants_of, range_tree};
ghost use Rattle.vl_parameters.specs.Plain.{plain_given};
ghost use Rattle.vl_design.specs.Declarations as design;
ghost use Rattle.vl_design.specs.Lists.{each_of};
ghost use Rattle.vl_design.specs.Spans.{optional_span, range_needs};
ghost use Rattle.vl_declares.specs.Plain.{Declares};
ghost use Rattle.vl_declares.specs.Items.{DeclaresItem, DeclaresParameters, registers_by, registers_needs};

use crate::declared::{Declared, Kind};
use crate::function::declare_function;
use crate::names::{declare_genvars, declare_instances};
use crate::ranged::{declare_nets, declare_ports};
use crate::values::declare_values;
use crate::variables::declare_variables;
use std::alloc::{AllocError, Global};
use vl_constants::range::span_of;
use vl_found::{Found, lesser};
use vl_frames::frames::Frames;
use vl_frames::notes::pass_values;
use vl_parameters::worth::{Given, type_of};
use vl_span::span::Span;
use vl_tree::expression::Range;
use vl_tree::item::{Item, Valued, Variable};

/// Declares what an item declares that holds no others; the least fault of the constants that it needs. What is given to
/// parameters is given to those that aren't local. A region, a loop and an `if` declare nothing here.
pub fn declare_item<'a>(
    alloc: Global,
    frames: &mut Frames,
    given: &[Given<'_>],
    item: &'a Item,
    declared: &mut Vec<Declared<'a>>,
) -> Result<Option<Found>, AllocError>
    ensures { let gs = map plain_given given.now in let i = view.item item.now in
        IfOk result (λ f. DeclaresItem gs i frames.old frames.new declared.old.items declared.new.items f) }
{
    match item {
        Item::Parameter(_, is_local, signed, range, values) => {
            let given = given_unless(*is_local, given);
            let fault = declare_parameters(
                alloc,
                frames,
                given,
                *signed,
                range.as_ref(),
                values.as_slice(),
                declared,
            )?;
            Ok(fault)
        }
        Item::Directed(directed, names) => {
            let fault = declare_ports(alloc, frames, directed, names.as_slice(), declared)?;
            Ok(fault)
        }
        Item::Nets(_, signed, range, nets) => {
            let fault = declare_nets(
                alloc,
                frames,
                *signed,
                range.as_ref(),
                nets.as_slice(),
                declared,
            )?;
            Ok(fault)
        }
        Item::Registers(_, signed, range, variables) => {
            let fault = declare_registers(
                alloc,
                frames,
                *signed,
                range.as_ref(),
                variables.as_slice(),
                declared,
            )?;
            Ok(fault)
        }
        Item::Integer(_, variables) => {
            let fault = declare_variables(
                alloc,
                frames,
                Kind::Integer,
                true,
                Span::Integer,
                variables.as_slice(),
                declared,
            )?;
            Ok(fault)
        }
        Item::Genvar(_, names) => {
            declare_genvars(names.as_slice(), declared)?;
            Ok(None)
        }
        Item::Function(function) => {
            let fault = declare_function(alloc, frames, function, declared)?;
            Ok(fault)
        }
        Item::Instances(_, _, instances) => {
            declare_instances(instances.as_slice(), declared)?;
            Ok(None)
        }
        Item::Continuous(_, _) => Ok(None),
        Item::Always(_, _, _) => Ok(None),
        Item::Initial(_, _) => Ok(None),
        Item::Region(_, _) => Ok(None),
        Item::GenerateLoop(_, _, _) => Ok(None),
        Item::GenerateIf(_, _) => Ok(None),
    }
}

// What is given to parameters; to local ones nothing is.
fn given_unless<'g, 'a>(is_local: bool, given: &'g [Given<'a>]) -> &'g [Given<'a>]
    ensures { let gs = map plain_given given.now in
        map plain_given result.now ≡ (if is_local then [] else gs) }
{
    if is_local { &[] } else { given }
}

// Declares parameters of a declared type, which hide genvars of their names; the least of the faults of the range and of
// their values.
fn declare_parameters<'a>(
    alloc: Global,
    frames: &mut Frames,
    given: &[Given<'_>],
    signed: bool,
    range: Option<&Range>,
    values: &'a [Valued],
    declared: &mut Vec<Declared<'a>>,
) -> Result<Option<Found>, AllocError>
    ensures { let gs = map plain_given given.now in let r = range_tree range.entry in
        let vs = map view.valued values.now in
        IfOk result (λ f. DeclaresParameters gs signed r vs frames.old frames.new declared.old.items declared.new.items f) }
{
    let typed = type_of(alloc, frames, signed, range)?;
    let found = declare_values(alloc, frames, given, typed.kind, values, declared)?;
    pass_values(alloc, frames, values)?;
    Ok(lesser(typed.fault, found))
}

// Declares registers and memories; the least fault of their range and of those of memories' words.
fn declare_registers<'a>(
    alloc: Global,
    frames: &Frames,
    signed: bool,
    range: Option<&Range>,
    variables: &'a [Variable],
    declared: &mut Vec<Declared<'a>>,
) -> Result<Option<Found>, AllocError>
    ensures { let k = constants_of frames.now in let r = range_tree range.entry in
        let vs = map view.variable variables.now in
        IfOk result (λ f. Declares declared.old.items (registers_by k signed r vs) (registers_needs k r vs) declared.new.items f) }
{
    let ranged = span_of(alloc, frames, range)?;
    let found = declare_variables(
        alloc,
        frames,
        Kind::Register,
        signed,
        ranged.span,
        variables,
        declared,
    )?;
    Ok(lesser(ranged.fault, found))
}
