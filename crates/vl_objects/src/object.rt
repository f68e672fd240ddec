//! Nets and variables.

ghost use Rattle.std.specs.Prelude.{◌≡◌, ◌++◌, ◌+◌, [], length, map, if◌then◌else◌, IfOk, OnOk};
ghost use Rattle.std.specs.Option.{option_map};
ghost use Rattle.vl_tree.specs.SyntaxView as view;
ghost use Rattle.vl_value.specs.Things.{width_of};
ghost use Rattle.vl_design.specs.Objects as design;
ghost use Rattle.vl_design.specs.Spans.{shape};
ghost use Rattle.vl_span.specs.Plain.{plain_span};
ghost use Rattle.vl_declares.specs.Plain.{all_plain, plain, plain_kind, plain_local};
ghost use Rattle.vl_repeats.specs.Flags.{picked};
ghost use Rattle.vl_objects.specs.Partners.{AreOf, found_partner, plain_partner, kind_by, signed_by, object_by, found_by};
ghost use Rattle.vl_objects.specs.Plain.{plain_range, plain_object, listed};

use crate::partner::{Partner, Partners, partners_of};
use std::alloc::{AllocError, Global};
use vl_declares::declared::{Declared, Kind, Local};
use vl_repeats::repeats::find_repeats;
use vl_span::span::Span;
use vl_tree::expression::Name;
use vl_tree::item::{Direction, Kept};

/// A range of bits with a sign, which may have more bits than a vector may have: that is a fault, told elsewhere.
#[derive(Clone, Copy, Debug, PartialEq, Eq)]
pub struct Range {
    pub left: u32,
    pub right: u32,
    pub signed: bool,
}

impl Range {
    /// How many bits it has.
    pub fn width(self) -> u64
        ensures { result ≡ width_of (plain_range self) }
    {
        u64::from(self.left.abs_diff(self.right)) + 1
    }
}

/// A net or a variable, with the direction of a port; it stands where its direction is declared. A range whose bounds have
/// a fault is `[0:0]`.
#[derive(Clone, Copy)]
pub struct Object<'a> {
    pub name: &'a Name,
    pub kind: Kind,
    pub direction: Option<Direction>,
    pub range: Range,
}

/// The objects of a scope, in order of text.
pub fn objects<'a>(alloc: Global, declared: &[Declared<'a>]) -> Result<Vec<Object<'a>>, AllocError>
    ensures { let ds = design.counted_behind [] (all_plain declared.now) in
        IfOk result (λ os. map plain_object os.items ≡ design.objects_of ds ds) }
{
    let repeats = find_repeats(alloc, declared)?;
    let objects = objects_of(alloc, repeats.counted.as_slice(), declared)?;
    Ok(objects)
}

// The objects of those declarations that count.
fn objects_of<'a>(
    alloc: Global,
    counted: &[bool],
    declared: &[Declared<'a>],
) -> Result<Vec<Object<'a>>, AllocError>
    requires { length counted.now ≡ length declared.now }
    ensures { let ds = picked counted.now (all_plain declared.now) in
        IfOk result (λ os. map plain_object os.items ≡ design.objects_of ds ds) }
{
    let found = partners_of(alloc, counted, declared)?;
    let mut objects = Vec::new(alloc);
    for k in 0..declared.len() {
        push_if(&mut objects, counted[k], &found, &declared[k])?;
    }
    Ok(objects)
}

// Appends the object of a declaration that counts.
fn push_if<'a>(
    objects: &mut Vec<Object<'a>>,
    counts: bool,
    found: &Partners,
    declared: &Declared<'a>,
) -> Result<(), AllocError>
    ensures { let one = if counts then found_by found.now (plain declared.now) else [] in
        OnOk result (map plain_object objects.new.items ≡ map plain_object objects.old.items ++ one) }
{
    if !counts {
        return Ok(());
    }
    push(objects, object_of(found, declared))
}

// Appends an object, if there is one.
fn push<'a>(objects: &mut Vec<Object<'a>>, object: Option<Object<'a>>) -> Result<(), AllocError>
    ensures { OnOk result (map plain_object objects.new.items ≡ map plain_object objects.old.items ++ listed object.entry) }
{
    let Some(one) = object else {
        return Ok(());
    };
    match objects.push(one) {
        Ok(()) => Ok(()),
        Err(_) => Err(AllocError),
    }
}

// The object of a declaration, if it makes one.
fn object_of<'a>(found: &Partners, declared: &Declared<'a>) -> Option<Object<'a>>
    ensures { listed result ≡ found_by found.now (plain declared.now) }
{
    match declared {
        Declared::Port(direction, kept, local) => Some(port(
            found.of(&local.name.text),
            *direction,
            *kept,
            local,
        )),
        Declared::Object(kind, local) => {
            if found.bare.has(&local.name.text) {
                return None;
            }
            Some(Object {
                name: local.name,
                kind: *kind,
                direction: None,
                range: range_of(local.span, local.signed),
            })
        }
        Declared::Memory(_, _) => None,
        Declared::Parameter(_, _) => None,
        Declared::Genvar(_) => None,
        Declared::Routine(_) => None,
        Declared::Inner(_) => None,
    }
}

// A port: `wire` or `reg` as it says, else as its other declaration does, which may say `signed` too.
fn port<'a>(
    other: Option<Partner>,
    direction: Direction,
    kept: Option<Kept>,
    local: &Local<'a>,
) -> Object<'a>
    ensures { let p = option_map plain_partner other in let k = option_map view.kept kept in
        plain_object result ≡ Rattle.vl_objects.specs.Partners.port_by p (view.direction direction) k (plain_local local.now) }
{
    Object {
        name: local.name,
        kind: kind_of(kept, other),
        direction: Some(direction),
        range: range_of(local.span, is_signed(kept, other, local.signed)),
    }
}

fn kind_of(kept: Option<Kept>, other: Option<Partner>) -> Kind
    ensures { plain_kind result ≡ kind_by (option_map view.kept kept) (option_map plain_partner other) }
{
    match kept {
        Some(Kept::Reg) => Kind::Register,
        Some(Kept::Wire) => Kind::Net,
        None => match other {
            Some(one) => one.kind,
            None => Kind::Net,
        },
    }
}

fn is_signed(kept: Option<Kept>, other: Option<Partner>, own: bool) -> bool
    ensures { result ≡ signed_by (option_map view.kept kept) (option_map plain_partner other) own }
{
    match kept {
        Some(_) => own,
        None => match other {
            Some(one) => own || one.signed,
            None => own,
        },
    }
}

/// The range of a declaration; `[0:0]` where its bounds have a fault.
pub fn range_of(span: Span, signed: bool) -> Range
    ensures { plain_range result ≡ shape signed (plain_span span) }
{
    match span.bounds() {
        Some((left, right)) => Range {
            left,
            right,
            signed,
        },
        None => Range {
            left: 0,
            right: 0,
            signed,
        },
    }
}
