//! The inputs and variables of a function.

ghost use Rattle.std.specs.Prelude.{◌≡◌, ◌++◌, ◌∷◌, [], false, IfOk, OnOk, map};
ghost use Rattle.vl_tree.specs.SyntaxView as view;
ghost use Rattle.vl_design.specs.Spans.{one_bit};
ghost use Rattle.vl_design.specs.Declarations as design;
ghost use Rattle.vl_design.specs.Lists.{each_of};
ghost use Rattle.vl_span.specs.Plain.{plain_span};
ghost use Rattle.vl_constants.specs.Needed.{constants_of};
ghost use Rattle.vl_declares.specs.Plain.{plain_local};
ghost use Rattle.vl_declares.specs.Locals.{all_locals, locals_named, AddsLocals, HasInput};

use crate::declared::Local;
use std::alloc::{AllocError, Global};
use vl_constants::range::span_of;
use vl_found::{Found, lesser};
use vl_frames::frames::Frames;
use vl_span::span::Span;
use vl_tree::expression::Name;
use vl_tree::item::{FunctionDeclaration, FunctionPort};

// An input, and the least fault of its range.
#[derive(Clone, Copy)]
struct Input<'a> {
    local: Local<'a>,
    fault: Option<Found>,
}

fn push_local<'a>(locals: &mut Vec<Local<'a>>, local: Local<'a>) -> Result<(), AllocError>
    ensures { OnOk result (all_locals locals.new.items ≡ all_locals locals.old.items ++ plain_local local.entry ∷ []) }
{
    match locals.push(local) {
        Ok(()) => Ok(()),
        Err(_) => Err(AllocError),
    }
}

/// Appends the inputs of a function's header: one without words takes those of the one before. The least fault of their
/// ranges.
pub fn header_inputs<'a>(
    alloc: Global,
    frames: &Frames,
    ports: &'a [FunctionPort],
    locals: &mut Vec<Local<'a>>,
) -> Result<Option<Found>, AllocError>
    ensures { let k = constants_of frames.now in let ps = map view.function_port ports.now in
        let ls = design.header_inputs k false one_bit ps in
        IfOk result (λ f. AddsLocals locals.old.items ls (each_of (design.input_needs k) ps) locals.new.items f) }
{
    let mut signed = false;
    let mut span = Span::OneBit;
    let mut fault = None;
    for port in ports {
        let input = input_by(alloc, frames, signed, span, port)?;
        signed = input.local.signed;
        span = input.local.span;
        fault = lesser(fault, input.fault);
        push_local(locals, input.local)?;
    }
    Ok(fault)
}

fn input_by<'a>(
    alloc: Global,
    frames: &Frames,
    signed: bool,
    span: Span,
    port: &'a FunctionPort,
) -> Result<Input<'a>, AllocError>
    ensures { let k = constants_of frames.now in let p = view.function_port port.now in
        IfOk result (λ i. HasInput k signed (plain_span span) p i.local i.fault) }
{
    match port {
        FunctionPort::Declared(_, signed, range, name) => {
            let ranged = span_of(alloc, frames, range.as_ref())?;
            let local = Local {
                name,
                signed: *signed,
                span: ranged.span,
            };
            Ok(Input {
                local,
                fault: ranged.fault,
            })
        }
        FunctionPort::Named(name) => Ok(Input {
            local: Local { name, signed, span },
            fault: None,
        }),
    }
}

/// Appends the inputs and variables that declarations in a function have, in order of text. The least fault of their ranges.
pub fn declared_locals<'a>(
    alloc: Global,
    frames: &Frames,
    declarations: &'a [FunctionDeclaration],
    locals: &mut Vec<Local<'a>>,
) -> Result<Option<Found>, AllocError>
    ensures { let k = constants_of frames.now in let ds = map view.function_declaration declarations.now in
        let ls = each_of (design.declared_locals k) ds in
        IfOk result (λ f. AddsLocals locals.old.items ls (each_of (design.declaration_needs k) ds) locals.new.items f) }
{
    let mut fault = None;
    for declaration in declarations {
        let found = locals_by(alloc, frames, declaration, locals)?;
        fault = lesser(fault, found);
    }
    Ok(fault)
}

fn locals_by<'a>(
    alloc: Global,
    frames: &Frames,
    declaration: &'a FunctionDeclaration,
    locals: &mut Vec<Local<'a>>,
) -> Result<Option<Found>, AllocError>
    ensures { let k = constants_of frames.now in let d = view.function_declaration declaration.now in
        IfOk result (λ f. AddsLocals locals.old.items (design.declared_locals k d) (design.declaration_needs k d) locals.new.items f) }
{
    match declaration {
        FunctionDeclaration::Inputs(_, signed, range, names) => {
            let ranged = span_of(alloc, frames, range.as_ref())?;
            push_locals(locals, *signed, ranged.span, names.as_slice())?;
            Ok(ranged.fault)
        }
        FunctionDeclaration::Variables(_, signed, range, names) => {
            let ranged = span_of(alloc, frames, range.as_ref())?;
            push_locals(locals, *signed, ranged.span, names.as_slice())?;
            Ok(ranged.fault)
        }
        FunctionDeclaration::Integers(_, names) => {
            push_locals(locals, true, Span::Integer, names.as_slice())?;
            Ok(None)
        }
    }
}

fn push_locals<'a>(
    locals: &mut Vec<Local<'a>>,
    signed: bool,
    span: Span,
    names: &'a [Name],
) -> Result<(), AllocError>
    ensures { let ls = locals_named signed (plain_span span) (map view.name names.now) in
        OnOk result (all_locals locals.new.items ≡ all_locals locals.old.items ++ ls) }
{
    for name in names {
        push_local(locals, Local { name, signed, span })?;
    }
    Ok(())
}

/// Appends the inputs that declarations in a function have, whose faults `declared_locals` tells.
pub fn declared_inputs<'a>(
    alloc: Global,
    frames: &Frames,
    declarations: &'a [FunctionDeclaration],
    locals: &mut Vec<Local<'a>>,
) -> Result<(), AllocError>
    ensures { let k = constants_of frames.now in let ds = map view.function_declaration declarations.now in
        let ls = each_of (design.declared_inputs k) ds in
        OnOk result (all_locals locals.new.items ≡ all_locals locals.old.items ++ ls) }
{
    for declaration in declarations {
        inputs_by(alloc, frames, declaration, locals)?;
    }
    Ok(())
}

fn inputs_by<'a>(
    alloc: Global,
    frames: &Frames,
    declaration: &'a FunctionDeclaration,
    locals: &mut Vec<Local<'a>>,
) -> Result<(), AllocError>
    ensures { let k = constants_of frames.now in let d = view.function_declaration declaration.now in
        OnOk result (all_locals locals.new.items ≡ all_locals locals.old.items ++ design.declared_inputs k d) }
{
    match declaration {
        FunctionDeclaration::Inputs(_, signed, range, names) => {
            let ranged = span_of(alloc, frames, range.as_ref())?;
            push_locals(locals, *signed, ranged.span, names.as_slice())?;
            Ok(())
        }
        FunctionDeclaration::Variables(_, _, _, _) => Ok(()),
        FunctionDeclaration::Integers(_, _) => Ok(()),
    }
}

/// Appends others.
pub fn push_all<'a>(locals: &mut Vec<Local<'a>>, others: &[Local<'a>]) -> Result<(), AllocError>
    ensures { OnOk result (all_locals locals.new.items ≡ all_locals locals.old.items ++ all_locals others.now) }
{
    for one in others {
        push_local(locals, *one)?;
    }
    Ok(())
}
