//! Declarations of the parameters of a module's header.

ghost use Rattle.std.specs.Prelude.{◌≡◌, IfOk, map};
ghost use Rattle.vl_tree.specs.SyntaxView as view;
ghost use Rattle.vl_design.specs.Parameters.{no_type};
ghost use Rattle.vl_parameters.specs.Plain.{plain_given, plain_type};
ghost use Rattle.vl_declares.specs.Values.{DeclaresHeader, DeclaresHeaderOne};

use crate::declared::Declared;
use crate::values::declare_one;
use std::alloc::{AllocError, Global};
use vl_found::{Found, lesser};
use vl_frames::frames::Frames;
use vl_parameters::worth::{Given, ParameterType, Typed, type_of};
use vl_tree::item::HeaderParameter;

/// Declares the parameters of a header in order, each of which sees those before it; the least of their faults.
pub fn declare_header<'a>(
    alloc: Global,
    frames: &mut Frames,
    given: &[Given<'_>],
    parameters: &'a [HeaderParameter],
    declared: &mut Vec<Declared<'a>>,
) -> Result<Option<Found>, AllocError>
    ensures { let gs = map plain_given given.now in let hs = map view.header_parameter parameters.now in
        IfOk result (λ f. DeclaresHeader gs no_type hs frames.old frames.new declared.old.items declared.new.items f) }
{
    let mut kind = ParameterType {
        signed: false,
        range: None,
    };
    let mut fault = None;
    for one in parameters {
        let typed = declare_header_one(alloc, frames, given, kind, one, declared)?;
        kind = typed.kind;
        fault = lesser(fault, typed.fault);
    }
    Ok(fault)
}

// Declares a parameter of a header: one without the word takes the type of the one before. Its type, and the least of its
// faults.
fn declare_header_one<'a>(
    alloc: Global,
    frames: &mut Frames,
    given: &[Given<'_>],
    kind: ParameterType,
    one: &'a HeaderParameter,
    declared: &mut Vec<Declared<'a>>,
) -> Result<Typed, AllocError>
    ensures { let gs = map plain_given given.now in let h = view.header_parameter one.now in
        IfOk result (λ y. DeclaresHeaderOne gs (plain_type kind) h (plain_type y.kind) frames.old frames.new declared.old.items declared.new.items y.fault) }
{
    match one {
        HeaderParameter::Declared(_, signed, range, name, own) => {
            let typed = type_of(alloc, frames, *signed, range.as_ref())?;
            let found = declare_one(alloc, frames, given, typed.kind, name, own, declared)?;
            Ok(Typed {
                kind: typed.kind,
                fault: lesser(typed.fault, found),
            })
        }
        HeaderParameter::Next(name, own) => {
            let found = declare_one(alloc, frames, given, kind, name, own, declared)?;
            Ok(Typed { kind, fault: found })
        }
    }
}
