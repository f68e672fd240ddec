//! Declarations of names that need no constant.

ghost use Rattle.std.specs.Prelude.{◌≡◌, ◌++◌, OnOk, map};
ghost use Rattle.vl_tree.specs.SyntaxView as view;
ghost use Rattle.vl_declares.specs.Plain.{all_plain, plain, port_of, genvars, inner_ones, ports, nets as nets_of};
ghost use Rattle.vl_span.specs.Plain.{plain_span};

use crate::declared::{Declared, Kind, Local, push};
use std::alloc::AllocError;
use vl_span::span::Span;
use vl_tree::expression::Name;
use vl_tree::item::{Directed, Instance, Net};

/// Declares genvars.
pub fn declare_genvars<'a>(
    names: &'a [Name],
    declared: &mut Vec<Declared<'a>>,
) -> Result<(), AllocError>
    ensures { let ds = genvars (map view.name names.now) in
        OnOk result (all_plain declared.new.items ≡ all_plain declared.old.items ++ ds) }
{
    for name in names {
        push(declared, Declared::Genvar(name))?;
    }
    Ok(())
}

/// Declares instances.
pub fn declare_instances<'a>(
    instances: &'a [Instance],
    declared: &mut Vec<Declared<'a>>,
) -> Result<(), AllocError>
    ensures { let ds = inner_ones (map view.instance instances.now) in
        OnOk result (all_plain declared.new.items ≡ all_plain declared.old.items ++ ds) }
{
    for instance in instances {
        push(declared, Declared::Inner(&instance.name))?;
    }
    Ok(())
}

/// Declares ports of one direction and one range.
pub fn push_ports<'a>(
    directed: &'a Directed,
    span: Span,
    names: &'a [Name],
    declared: &mut Vec<Declared<'a>>,
) -> Result<(), AllocError>
    ensures { let ds = ports (view.directed directed.now) (plain_span span) (map view.name names.now) in
        OnOk result (all_plain declared.new.items ≡ all_plain declared.old.items ++ ds) }
{
    for name in names {
        push(declared, port_by(directed, span, name))?;
    }
    Ok(())
}

/// A port of a direction.
pub fn port_by<'a>(directed: &Directed, span: Span, name: &'a Name) -> Declared<'a>
    ensures { plain result ≡ port_of (view.directed directed.now) (plain_span span) (view.name name.now) }
{
    let local = Local {
        name,
        signed: directed.signed,
        span,
    };
    Declared::Port(directed.direction, directed.kept, local)
}

/// Declares nets of one range.
pub fn push_nets<'a>(
    signed: bool,
    span: Span,
    nets: &'a [Net],
    declared: &mut Vec<Declared<'a>>,
) -> Result<(), AllocError>
    ensures { let ds = nets_of signed (plain_span span) (map view.net nets.now) in
        OnOk result (all_plain declared.new.items ≡ all_plain declared.old.items ++ ds) }
{
    for net in nets {
        let local = Local {
            name: &net.name,
            signed,
            span,
        };
        push(declared, Declared::Object(Kind::Net, local))?;
    }
    Ok(())
}
