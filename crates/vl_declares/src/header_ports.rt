//! Declarations of the ports of a module's header.

ghost use Rattle.std.specs.Prelude.{◌≡◌, ◌++◌, None, IfOk, OnOk, map};
ghost use Rattle.vl_tree.specs.SyntaxView as view;
ghost use Rattle.vl_design.specs.Declarations as design;
ghost use Rattle.vl_design.specs.Lists.{each_of};
ghost use Rattle.vl_constants.specs.Needed.{constants_of};
ghost use Rattle.vl_declares.specs.Plain.{all_plain, Declares};
ghost use Rattle.vl_declares.specs.HeaderPorts.{DeclaresPort, Holds, words_of, named_here};

use crate::declared::{Declared, push};
use crate::names::port_by;
use std::alloc::{AllocError, Global};
use vl_constants::range::span_of;
use vl_found::{Found, lesser};
use vl_frames::frames::Frames;
use vl_span::span::Span;
use vl_tree::expression::Name;
use vl_tree::item::{Directed, Port};

/// The words of a port, which a bare name behind it takes, with its range.
#[derive(Clone, Copy)]
pub struct Words<'a> {
    pub directed: &'a Directed,
    pub span: Span,
}

// The words of the last port, and the least fault of its range.
#[derive(Clone, Copy)]
struct Ported<'a> {
    words: Option<Words<'a>>,
    fault: Option<Found>,
}

/// Declares the ports of a header: a bare name behind a declared one takes its words. The least fault of their ranges.
pub fn declare_header_ports<'a>(
    alloc: Global,
    frames: &Frames,
    ports: &'a [Port],
    declared: &mut Vec<Declared<'a>>,
) -> Result<Option<Found>, AllocError>
    ensures { let k = constants_of frames.now in let ps = map view.port ports.now in
        IfOk result (λ f. Declares declared.old.items (design.header_ports k None ps) (each_of (design.port_needs k) ps) declared.new.items f) }
{
    let mut words = None;
    let mut fault = None;
    for port in ports {
        let ported = declare_port(alloc, frames, words, port, declared)?;
        words = ported.words;
        fault = lesser(fault, ported.fault);
    }
    Ok(fault)
}

fn declare_port<'a>(
    alloc: Global,
    frames: &Frames,
    words: Option<Words<'a>>,
    port: &'a Port,
    declared: &mut Vec<Declared<'a>>,
) -> Result<Ported<'a>, AllocError>
    requires { Holds (constants_of frames.now) words }
    ensures { let k = constants_of frames.now in let p = view.port port.now in
        IfOk result (λ r. DeclaresPort k words.entry p declared.old.items declared.new.items r.words r.fault) }
{
    match port {
        Port::Declared(directed, name) => {
            let ranged = span_of(alloc, frames, directed.range.as_ref())?;
            push(declared, port_by(directed, ranged.span, name))?;
            Ok(Ported {
                words: Some(Words {
                    directed,
                    span: ranged.span,
                }),
                fault: ranged.fault,
            })
        }
        Port::Named(name) => {
            declare_named(words, name, declared)?;
            Ok(Ported { words, fault: None })
        }
    }
}

// A bare name, which is a port where one stands before it.
fn declare_named<'a>(
    words: Option<Words<'a>>,
    name: &'a Name,
    declared: &mut Vec<Declared<'a>>,
) -> Result<(), AllocError>
    ensures { let ds = named_here words.entry (view.name name.now) in
        OnOk result (all_plain declared.new.items ≡ all_plain declared.old.items ++ ds) }
{
    match words {
        Some(one) => {
            push(declared, port_by(one.directed, one.span, name))?;
            Ok(())
        }
        None => Ok(()),
    }
}
