//! Declarations of variables and memories.

ghost use Rattle.std.specs.Prelude.{◌≡◌, ◌++◌, ◌∷◌, [], IfOk, OnOk, map};
ghost use Rattle.std.specs.Option.{option_map};
ghost use Rattle.vl_tree.specs.SyntaxView as view;
ghost use Rattle.vl_value.specs.Order.{lesser as lesser_of, least};
ghost use Rattle.vl_found.specs.View.{found};
ghost use Rattle.vl_design.specs.Declarations as design;
ghost use Rattle.vl_design.specs.Lists.{each_of};
ghost use Rattle.vl_span.specs.Plain.{plain_span};
ghost use Rattle.vl_constants.specs.Needed.{constants_of};
ghost use Rattle.vl_declares.specs.Plain.{Declares, plain, plain_kind};
ghost use Rattle.vl_declares.specs.Variables.{HasVariable};

use crate::declared::{Declared, Kind, Local, push};
use std::alloc::{AllocError, Global};
use vl_constants::range::declared_span;
use vl_found::{Found, lesser};
use vl_frames::frames::Frames;
use vl_span::span::Span;
use vl_tree::item::Variable;

/// A declaration of a variable or a memory, and the least fault of the range of a memory's words.
#[derive(Drop)]
struct Declaration<'a> {
    declared: Declared<'a>,
    fault: Option<Found>,
}

/// Declares variables and memories of one range; the least fault of the ranges of memories' words.
pub fn declare_variables<'a>(
    alloc: Global,
    frames: &Frames,
    kind: Kind,
    signed: bool,
    span: Span,
    variables: &'a [Variable],
    declared: &mut Vec<Declared<'a>>,
) -> Result<Option<Found>, AllocError>
    ensures { let k = constants_of frames.now in
        let ds = map (design.variable_by k (plain_kind kind) signed (plain_span span)) (map view.variable variables.now) in
        let fs = each_of (design.words_needs k) (map view.variable variables.now) in
        IfOk result (λ f. Declares declared.old.items ds fs declared.new.items f) }
{
    let mut fault = None;
    for variable in variables {
        let one = variable_by(alloc, frames, kind, signed, span, variable)?;
        fault = lesser(fault, one.fault);
        push(declared, one.declared)?;
    }
    Ok(fault)
}

// A variable or a memory.
fn variable_by<'a>(
    alloc: Global,
    frames: &Frames,
    kind: Kind,
    signed: bool,
    span: Span,
    variable: &'a Variable,
) -> Result<Declaration<'a>, AllocError>
    ensures { let k = constants_of frames.now in
        IfOk result (λ d. HasVariable k (plain_kind kind) signed (plain_span span) (view.variable variable.now) d.declared d.fault) }
{
    match variable {
        Variable::Plain(name) => Ok(Declaration {
            declared: Declared::Object(kind, Local { name, signed, span }),
            fault: None,
        }),
        Variable::Valued(name, _) => Ok(Declaration {
            declared: Declared::Object(kind, Local { name, signed, span }),
            fault: None,
        }),
        Variable::Memory(name, words) => {
            let words = declared_span(alloc, frames, words)?;
            Ok(Declaration {
                declared: Declared::Memory(Local { name, signed, span }, words.span),
                fault: words.fault,
            })
        }
    }
}
