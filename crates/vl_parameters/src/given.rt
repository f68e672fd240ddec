//! The values that an instance gives to parameters.

ghost use Rattle.std.specs.Prelude.{◌≡◌, Some, IfOk, map};
ghost use Rattle.std.specs.Option.{option_map};
ghost use Rattle.vl_tree.specs.SyntaxView as view;
ghost use Rattle.vl_tree.specs.declared.fault.FaultKind.TheVariants.{UnknownParameter};
ghost use Rattle.vl_value.specs.Order.{at};
ghost use Rattle.vl_width.specs.Lists.{exprs_of};
ghost use Rattle.vl_found.specs.View.{found};
ghost use Rattle.vl_constants.specs.Needed.{constants_of};
ghost use Rattle.vl_parameters.specs.Open.{texts_of};
ghost use Rattle.vl_parameters.specs.Gifts.{Adds, AddsBind, AddsIfOpen, GivesAll, GivesByName, GivesInOrder, HasNames};

use crate::open::open_parameters;
use crate::worth::Given;
use dt_core::place::Place;
use dt_core::text::Text;
use std::alloc::{AllocError, Global};
use vl_constants::value::{Evaluated, evaluate};
use vl_found::{Found, lesser};
use vl_frames::frames::Frames;
use vl_names::NameSet;
use vl_tree::expression::Expr;
use vl_tree::fault::FaultKind;
use vl_tree::item::{Binds, Module, NamedBind};
use vl_width::place::start;

/// The values that an instance gives, in order of text, and the least of their faults.
#[derive(Drop)]
pub struct Gift<'a> {
    pub given: Vec<Given<'a>>,
    pub fault: Option<Found>,
}

/// The values that an instance gives to the parameters of a module, by what stands behind the module's name; none where no
/// `#(..)` stands there, or an empty one.
pub fn given_by<'a>(
    alloc: Global,
    frames: &Frames,
    parent: &'a Module,
    values: &'a Option<Option<Binds>>,
) -> Result<Gift<'a>, AllocError>
    ensures { let m = view.module_tree parent.now in let b = option_map (option_map view.binds) values.now in
        IfOk result (λ g. GivesAll (constants_of frames.now) m b g.given.items g.fault) }
{
    match values {
        Some(inner) => {
            let gift = given_if(alloc, frames, parent, inner)?;
            Ok(gift)
        }
        None => Ok(Gift {
            given: Vec::new(alloc),
            fault: None,
        }),
    }
}

fn given_if<'a>(
    alloc: Global,
    frames: &Frames,
    parent: &'a Module,
    values: &'a Option<Binds>,
) -> Result<Gift<'a>, AllocError>
    ensures { let m = view.module_tree parent.now in let b = Some (option_map view.binds values.now) in
        IfOk result (λ g. GivesAll (constants_of frames.now) m b g.given.items g.fault) }
{
    match values {
        Some(binds) => {
            let gift = given_in(alloc, frames, parent, binds)?;
            Ok(gift)
        }
        None => Ok(Gift {
            given: Vec::new(alloc),
            fault: None,
        }),
    }
}

fn given_in<'a>(
    alloc: Global,
    frames: &Frames,
    parent: &'a Module,
    binds: &'a Binds,
) -> Result<Gift<'a>, AllocError>
    ensures { let m = view.module_tree parent.now in let b = Some (Some (view.binds binds.now)) in
        IfOk result (λ g. GivesAll (constants_of frames.now) m b g.given.items g.fault) }
{
    let texts = open_parameters(alloc, parent)?;
    match binds {
        Binds::Ordered(all) => {
            let gift = given_in_order(alloc, frames, texts.as_slice(), all.as_slice())?;
            Ok(gift)
        }
        Binds::ByName(all) => {
            let gift = given_by_name(alloc, frames, texts.as_slice(), all.as_slice())?;
            Ok(gift)
        }
    }
}

// Appends the value that an expression gives to a parameter; the fault of the expression.
fn give<'a>(
    alloc: Global,
    frames: &Frames,
    given: &mut Vec<Given<'a>>,
    name: &'a Text,
    e: &Expr,
) -> Result<Option<Found>, AllocError>
    ensures { IfOk result (λ f. Adds (constants_of frames.now) name.now (view.expr e.now) given.old.items given.new.items f) }
{
    let Evaluated {
        place,
        value,
        fault,
    } = evaluate(alloc, frames, e)?;
    match given.push(Given { name, place, value }) {
        Ok(()) => Ok(fault),
        Err(_) => Err(AllocError),
    }
}

// UnknownParameter at a place.
fn unknown(place: Place) -> Found
    ensures { found result ≡ at (view.place place) UnknownParameter }
{
    Found {
        place,
        kind: FaultKind::UnknownParameter,
    }
}

// Values in order; the first of too many is a fault.
fn given_in_order<'a>(
    alloc: Global,
    frames: &Frames,
    texts: &[&'a Text],
    all: &[Expr],
) -> Result<Gift<'a>, AllocError>
    ensures { let xs = texts_of texts.now in
        IfOk result (λ g. GivesInOrder (constants_of frames.now) xs (exprs_of all.now) g.given.items g.fault) }
{
    let mut given = Vec::new(alloc);
    let mut fault = None;
    for k in 0..all.len() {
        if k >= texts.len() {
            let many = lesser(fault, Some(unknown(start(&all[k]))));
            return Ok(Gift { given, fault: many });
        }
        let found = give(alloc, frames, &mut given, texts[k], &all[k])?;
        fault = lesser(fault, found);
    }
    Ok(Gift { given, fault })
}

// Values by name.
fn given_by_name<'a>(
    alloc: Global,
    frames: &Frames,
    texts: &[&Text],
    binds: &'a [NamedBind],
) -> Result<Gift<'a>, AllocError>
    ensures { let xs = texts_of texts.now in
        IfOk result (λ g. GivesByName (constants_of frames.now) xs (map view.named_bind binds.now) g.given.items g.fault) }
{
    let names = names_of(alloc, texts)?;
    let mut bound = NameSet::new(alloc);
    let mut given = Vec::new(alloc);
    let mut fault = None;
    for bind in binds {
        let is_open = names.has(&bind.name.text);
        let is_bound = bound.has(&bind.name.text);
        let found = bind_one(alloc, frames, &mut given, bind, is_open, is_bound)?;
        fault = lesser(fault, found);
        bound.add(alloc, &bind.name.text)?;
    }
    Ok(Gift { given, fault })
}

// Names as a set.
fn names_of(alloc: Global, all: &[&Text]) -> Result<NameSet, AllocError>
    ensures { let xs = texts_of all.now in
        IfOk result (λ s. HasNames s xs) }
{
    let mut names = NameSet::new(alloc);
    for name in all {
        names.add(alloc, name)?;
    }
    Ok(names)
}

// Appends the value of a bind whose name is open; the fault of the bind, which may bind only an open name, and once.
fn bind_one<'a>(
    alloc: Global,
    frames: &Frames,
    given: &mut Vec<Given<'a>>,
    bind: &'a NamedBind,
    is_open: bool,
    is_bound: bool,
) -> Result<Option<Found>, AllocError>
    ensures { IfOk result (λ f. AddsIfOpen (constants_of frames.now) is_open is_bound (view.named_bind bind.now) given.old.items given.new.items f) }
{
    if !is_open {
        return Ok(Some(unknown(bind.name.place)));
    }
    let needed = bind_open(alloc, frames, given, bind)?;
    if is_bound {
        Ok(Some(unknown(bind.name.place)))
    } else {
        Ok(needed)
    }
}

// Appends the value of a bind, if it has one; the fault of the value.
fn bind_open<'a>(
    alloc: Global,
    frames: &Frames,
    given: &mut Vec<Given<'a>>,
    bind: &'a NamedBind,
) -> Result<Option<Found>, AllocError>
    ensures { IfOk result (λ f. AddsBind (constants_of frames.now) (view.named_bind bind.now) given.old.items given.new.items f) }
{
    match &bind.value {
        Some(e) => {
            let fault = give(alloc, frames, given, &bind.name.text, e)?;
            Ok(fault)
        }
        None => Ok(None),
    }
}
