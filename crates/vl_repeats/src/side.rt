//! What a declaration is beside another of its name.

ghost use Rattle.std.specs.Prelude.{◌≡◌, false};
ghost use Rattle.std.specs.Option.{option_map};
ghost use Rattle.vl_tree.specs.SyntaxView as view;
ghost use Rattle.vl_value.specs.Order.{least};
ghost use Rattle.vl_found.specs.View.{found};
ghost use Rattle.vl_design.specs.Declarations as design;
ghost use Rattle.vl_design.specs.ObjectFaults as faults;
ghost use Rattle.vl_design.specs.Spans.{shape};
ghost use Rattle.vl_span.specs.Plain.{plain_span};
ghost use Rattle.vl_declares.specs.Plain.{plain, plain_kind};
ghost use Rattle.vl_repeats.specs.Sides.{plain_side, plain_met, side_of, counts_by, faults_by, more, united_at};

use dt_core::place::Place;
use vl_declares::declared::{Declared, Kind};
use vl_found::Found;
use vl_span::span::Span;
use vl_tree::expression::Name;
use vl_tree::fault::FaultKind;
use vl_tree::item::Direction;

/// A declaration as far as another of its name asks: whether it is a direction without `wire` or `reg`, or a net or variable
/// without a direction; its range of bits, if such a thing has one; whether it is an input, or a variable.
#[derive(Clone, Copy, Debug, PartialEq, Eq)]
pub struct Side {
    pub is_bare_port: bool,
    pub is_plain_object: bool,
    pub span: Option<Span>,
    pub is_input: bool,
    pub is_variable: bool,
}

/// What was met of a name.
#[derive(Clone, Copy, Debug, PartialEq, Eq)]
pub enum Met {
    /// One declaration.
    Once(Side),
    /// Two at least.
    Again,
}

/// The name that is declared.
pub fn name_of<'d, 'a>(declared: &'d Declared<'a>) -> &'a Name
    ensures { view.name result.now ≡ design.name_of (plain declared.now) }
{
    match declared {
        Declared::Port(_, _, local) => local.name,
        Declared::Object(_, local) => local.name,
        Declared::Memory(local, _) => local.name,
        Declared::Parameter(name, _) => name,
        Declared::Genvar(name) => name,
        Declared::Routine(routine) => routine.result.name,
        Declared::Inner(name) => name,
    }
}

/// What a declaration is beside another.
pub fn as_side(declared: &Declared<'_>) -> Side
    ensures { plain_side result ≡ side_of (plain declared.now) }
{
    match declared {
        Declared::Port(direction, kept, local) => Side {
            is_bare_port: kept.is_none(),
            is_plain_object: false,
            span: Some(local.span),
            is_input: is_input(*direction),
            is_variable: false,
        },
        Declared::Object(kind, local) => Side {
            is_bare_port: false,
            is_plain_object: true,
            span: Some(local.span),
            is_input: false,
            is_variable: is_variable(*kind),
        },
        Declared::Memory(_, _) => neither(),
        Declared::Parameter(_, _) => neither(),
        Declared::Genvar(_) => neither(),
        Declared::Routine(_) => neither(),
        Declared::Inner(_) => neither(),
    }
}

// Neither a port nor a net or a variable.
fn neither() -> Side
    ensures { plain_side result ≡ Rattle.vl_repeats.specs.Sides.neither }
{
    Side {
        is_bare_port: false,
        is_plain_object: false,
        span: None,
        is_input: false,
        is_variable: false,
    }
}

fn is_input(direction: Direction) -> bool
    ensures { result ≡ Rattle.vl_repeats.specs.Sides.is_input_direction (view.direction direction) }
{
    match direction {
        Direction::Input => true,
        Direction::Output => false,
    }
}

fn is_variable(kind: Kind) -> bool
    ensures { result ≡ Rattle.vl_repeats.specs.Sides.is_variable_kind (plain_kind kind) }
{
    match kind {
        Kind::Net => false,
        Kind::Register => true,
        Kind::Integer => true,
    }
}

/// Whether a declaration counts behind what was met of its name.
pub fn counts(met: Option<Met>, one: Side) -> bool
    ensures { result ≡ counts_by (option_map plain_met met) (plain_side one) }
{
    match met {
        None => true,
        Some(Met::Once(before)) => may_unite(before, one),
        Some(Met::Again) => false,
    }
}

/// What is met of a name behind one more declaration.
pub fn met_more(met: Option<Met>, one: Side) -> Met
    ensures { plain_met result ≡ more (option_map plain_met met) (plain_side one) }
{
    match met {
        None => Met::Once(one),
        Some(_) => Met::Again,
    }
}

/// The fault of a declaration behind what was met of its name, which stands at a place.
pub fn repeated(met: Option<Met>, one: Side, place: Place) -> Option<Found>
    ensures { option_map found result ≡ least (faults_by (option_map plain_met met) (plain_side one) (view.place place)) }
{
    match met {
        None => None,
        Some(Met::Once(before)) => {
            if may_unite(before, one) {
                united(before, one, place)
            } else {
                Some(Found {
                    place,
                    kind: FaultKind::Duplicate,
                })
            }
        }
        Some(Met::Again) => Some(Found {
            place,
            kind: FaultKind::Duplicate,
        }),
    }
}

fn may_unite(a: Side, b: Side) -> bool
    ensures { result ≡ Rattle.vl_repeats.specs.Sides.may_unite (plain_side a) (plain_side b) }
{
    (a.is_bare_port && b.is_plain_object) || (a.is_plain_object && b.is_bare_port)
}

// Two declarations that make one object: their ranges agree, and an input is no variable.
fn united(a: Side, b: Side, place: Place) -> Option<Found>
    ensures { option_map found result ≡ least (united_at (plain_side a) (plain_side b) (view.place place)) }
{
    let is_driven = (a.is_input && b.is_variable) || (a.is_variable && b.is_input);
    if agree(a.span, b.span) && !is_driven {
        return None;
    }
    Some(Found {
        place,
        kind: FaultKind::BadPort,
    })
}

fn agree(a: Option<Span>, b: Option<Span>) -> bool
    ensures { result ≡ faults.spans_agree (option_map plain_span a) (option_map plain_span b) }
{
    match (a, b) {
        (Some(a), Some(b)) => same_bounds(a, b),
        _ => false,
    }
}

fn same_bounds(a: Span, b: Span) -> bool
    ensures { result ≡ faults.same_bounds (shape false (plain_span a)) (shape false (plain_span b)) }
{
    let (left, right) = bounds(a);
    let (other_left, other_right) = bounds(b);
    left == other_left && right == other_right
}

// The bounds of a range of bits; 0 where one is none.
fn bounds(span: Span) -> (u32, u32)
    ensures left { result.0 ≡ (shape false (plain_span span)).left }
    ensures right { result.1 ≡ (shape false (plain_span span)).right }
{
    match span.bounds() {
        Some(bounds) => bounds,
        None => (0, 0),
    }
}
