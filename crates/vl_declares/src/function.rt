//! Declarations of functions.

ghost use Rattle.std.specs.Prelude.{IfOk};
ghost use Rattle.vl_tree.specs.SyntaxView as view;
ghost use Rattle.vl_constants.specs.Needed.{constants_of};
ghost use Rattle.vl_declares.specs.Functions.{DeclaresFunction, HasBody, HasResult};
ghost use Rattle.vl_declares.specs.Plain.{plain_local};

use crate::declared::{Declared, Local, Routine, push};
use crate::inputs::{declared_inputs, declared_locals, header_inputs, push_all};
use std::alloc::{AllocError, Global};
use vl_constants::range::declared_span;
use vl_found::{Found, lesser};
use vl_frames::frames::Frames;
use vl_frames::notes::hide_function;
use vl_span::span::Span;
use vl_tree::item::{Function, FunctionType};

// The result of a function, and the least fault of its range.
#[derive(Clone, Copy)]
struct Resulting<'a> {
    local: Local<'a>,
    fault: Option<Found>,
}

fn result_of<'a>(
    alloc: Global,
    frames: &Frames,
    function: &'a Function,
) -> Result<Resulting<'a>, AllocError>
    ensures { let k = constants_of frames.now in let f = view.function function.now in
        IfOk result (λ r. HasResult k f r.local r.fault) }
{
    let name = &function.name;
    match &function.result {
        FunctionType::Bit => Ok(Resulting {
            local: Local {
                name,
                signed: function.signed,
                span: Span::OneBit,
            },
            fault: None,
        }),
        FunctionType::Range(range) => {
            let ranged = declared_span(alloc, frames, range)?;
            Ok(Resulting {
                local: Local {
                    name,
                    signed: function.signed,
                    span: ranged.span,
                },
                fault: ranged.fault,
            })
        }
        FunctionType::Integer => Ok(Resulting {
            local: Local {
                name,
                signed: true,
                span: Span::Integer,
            },
            fault: None,
        }),
    }
}

// A function without its faults in sight, and the least fault of its inputs and variables.
#[derive(Drop)]
struct Body<'a> {
    routine: Routine<'a>,
    fault: Option<Found>,
}

// A function of this result, among the constants that are in sight in it.
fn body_of<'a>(
    alloc: Global,
    frames: &Frames,
    local: Local<'a>,
    function: &'a Function,
) -> Result<Body<'a>, AllocError>
    ensures { let k = constants_of frames.now in let f = view.function function.now in
        IfOk result (λ r. HasBody k f (plain_local local.entry) r.routine r.fault) }
{
    let mut inputs = Vec::new(alloc);
    let ports = header_inputs(alloc, frames, function.ports.as_slice(), &mut inputs)?;
    let mut locals = Vec::new(alloc);
    push_all(&mut locals, inputs.as_slice())?;
    declared_inputs(alloc, frames, function.declarations.as_slice(), &mut inputs)?;
    let own = declared_locals(alloc, frames, function.declarations.as_slice(), &mut locals)?;
    Ok(Body {
        routine: Routine {
            result: local,
            inputs,
            locals,
        },
        fault: lesser(ports, own),
    })
}

/// Declares a function; the least fault of its ranges. Its names hide outer ones in the ranges of its inputs and variables.
pub fn declare_function<'a>(
    alloc: Global,
    frames: &mut Frames,
    function: &'a Function,
    declared: &mut Vec<Declared<'a>>,
) -> Result<Option<Found>, AllocError>
    ensures { let f = view.function function.now in
        IfOk result (λ g. DeclaresFunction f frames.old frames.new declared.old.items declared.new.items g) }
{
    let result = result_of(alloc, frames, function)?;
    frames.enter(alloc)?;
    hide_function(alloc, frames, function)?;
    let body = body_of(alloc, frames, result.local, function)?;
    frames.leave();
    push(declared, Declared::Routine(body.routine))?;
    Ok(lesser(result.fault, body.fault))
}
