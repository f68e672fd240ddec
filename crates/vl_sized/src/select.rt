//! Names with selects: their own faults, and the bits that they read.

ghost use Rattle.std.specs.Prelude.{◌≡◌, ◌≤◌, Some, map, false};
ghost use Rattle.std.specs.Option.{option_map};
ghost use Rattle.vl_tree.specs.SyntaxView as view;
ghost use Rattle.vl_tree.specs.declared.fault.FaultKind.TheVariants.{BadSelect};
ghost use Rattle.dt_core.specs.declared.limits.TheConstants.{MAX_WIDTH};
ghost use Rattle.vl_value.specs.Meaning as meaning;
ghost use Rattle.vl_value.specs.Things.{width_of, constant};
ghost use Rattle.vl_value.specs.Order.{at};
ghost use Rattle.vl_value.specs.Faults as faults;
ghost use Rattle.vl_width.specs.Objects.{Numbering, thing, plain_shape};
ghost use Rattle.vl_sized.specs.Moments.{constant_sense};
ghost use Rattle.vl_sized.specs.Sensed as sensed;
ghost use Rattle.vl_sized.specs.Sensed.{named_word};
ghost use Rattle.vl_sized.specs.Wholes.{integer, if_width};
ghost use Rattle.vl_found.specs.View.{found};
ghost use Rattle.vl_sized.specs.Nodes.{whole_of};
ghost use Rattle.vl_sized.specs.Plain.{sense_of, basis, plain_pick, plain_picks, judged};
ghost use Rattle.vl_sized.specs.Plain.{part_cover, part_width, part_signed, vector_of, HasBits};

use crate::build;
use crate::node::{Index, Node, Part, SizedExpr, SizedNode, Source};
use crate::picks::{Pick, Picks};
use crate::whole::Whole;
use dt_core::bits::Bits;
use dt_core::limits::MAX_WIDTH;
use dt_core::place::Place;
use sqlite_items::Items;
use vl_found::{Found, lesser};
use vl_tree::fault::FaultKind;
use vl_width::names::Object;
use vl_width::number::Constant;
use vl_width::shape::Shape;
use vl_width::size::Size;

/// What a name with selects is, or the least fault of its selects and its own.
pub fn read(object: Option<Object>, place: Place, picks: Picks) -> Result<SizedExpr, Found>
    ensures { (ns : Numbering) →
        judged (sense_of ns) result ≡ sensed.read_sensed (option_map (thing ns) object) (view.place place) (plain_picks ns picks) }
{
    let Picks { fault, list } = picks;
    let own = of_name(object, place, fault, list.as_slice());
    match lesser(fault, own) {
        Some(fault) => Err(fault),
        None => Ok(named(object, list)),
    }
}

// What a name with selects is, where nothing is at fault.
fn named(object: Option<Object>, list: Items<Pick>) -> SizedExpr
    ensures { (ns : Numbering) →
        sense_of ns result ≡ sensed.named (option_map (thing ns) object) (map (plain_pick ns) list) }
{
    let Some(object) = object else {
        return nothing();
    };
    match object {
        Object::Signal { number, shape } => vector(shape, Source::Signal(number), list),
        Object::Local { number, shape } => vector(shape, Source::Local(number), list),
        Object::Function {
            number,
            shape,
            inside,
            ..
        } => {
            if inside {
                vector(shape, Source::Function(number), list)
            } else {
                nothing()
            }
        }
        Object::Memory {
            number,
            shape,
            first,
            last,
        } => word(number, shape, first, last, list),
        Object::Constant(number) => build::number(number),
    }
}

/// One bit that is 0, where a fault is told.
pub fn nothing() -> SizedExpr
    ensures { (ns : Numbering) → sense_of ns result ≡ constant_sense (meaning.unsigned 1 0) }
{
    build::number(Constant {
        bits: Bits::of(1, 0),
        signed: false,
    })
}

// A word of a memory, of which the first select is the index.
fn word(number: u32, shape: Shape, first: u32, last: u32, list: Items<Pick>) -> SizedExpr
    ensures { (ns : Numbering) →
        sense_of ns result ≡ named_word (ns.memories number) (plain_shape shape) first last (map (plain_pick ns) list) }
{
    let mut list = list;
    if list.is_empty() {
        return nothing();
    }
    match list.remove(0) {
        Pick::Bit(Some(index)) => vector(shape, Source::Word(number, first, last, index), list),
        Pick::Bit(None) => nothing(),
        Pick::Span(_, _) => nothing(),
        Pick::Upward(_, _) => nothing(),
        Pick::Downward(_, _) => nothing(),
    }
}

// The bits that the first select covers, or all.
fn vector(shape: Shape, source: Source<Node>, list: Items<Pick>) -> SizedExpr
    ensures { (ns : Numbering) →
        sense_of ns result ≡ sensed.covered (vector_of ns shape source) (sensed.cover (map (plain_pick ns) list)) }
{
    let mut list = list;
    if list.is_empty() {
        return part_of(shape, source, Part::Whole);
    }
    part_of(shape, source, covered_by(list.remove(0)))
}

// What a select covers; all where it has a fault.
fn covered_by(pick: Pick) -> Part<Node>
    ensures cover { (ns : Numbering) → part_cover ns result ≡ sensed.cover_by (plain_pick ns pick) }
    ensures range { HasBits result }
{
    match pick {
        Pick::Bit(index) => one(index),
        Pick::Span(a, b) => between(a, b),
        Pick::Upward(index, width) => upward(index, width),
        Pick::Downward(index, width) => downward(index, width),
    }
}

// `[i]`
fn one(index: Option<Index<Node>>) -> Part<Node>
    ensures cover { (ns : Numbering) → part_cover ns result ≡ sensed.cover_by (sensed.one (option_map (basis ns) index)) }
    ensures range { HasBits result }
{
    match index {
        Some(index) => Part::Upward(index, 1),
        None => Part::Whole,
    }
}

// `[a:b]`
fn between(a: Option<Constant>, b: Option<Constant>) -> Part<Node>
    ensures cover { let x = option_map whole_of a in let y = option_map whole_of b in
        (ns : Numbering) → part_cover ns result ≡ sensed.cover_by (sensed.span x y) }
    ensures range { HasBits result }
{
    let Some(a) = a else {
        return Part::Whole;
    };
    let Some(b) = b else {
        return Part::Whole;
    };
    match Whole::of(a).bits_to(Whole::of(b)) {
        Some(bits) => Part::Upward(Index::Fixed(lesser_of(a, b)), bits),
        None => Part::Whole,
    }
}

// `[b +: w]`
fn upward(index: Option<Index<Node>>, width: Option<Constant>) -> Part<Node>
    ensures cover { (ns : Numbering) →
        part_cover ns result ≡ sensed.cover_by (sensed.up (option_map (basis ns) index) (option_map whole_of width)) }
    ensures range { HasBits result }
{
    let Some(index) = index else {
        return Part::Whole;
    };
    let Some(width) = width else {
        return Part::Whole;
    };
    match Whole::of(width).bits() {
        Some(bits) => Part::Upward(index, bits),
        None => Part::Whole,
    }
}

// `[b -: w]`
fn downward(index: Option<Index<Node>>, width: Option<Constant>) -> Part<Node>
    ensures cover { (ns : Numbering) →
        part_cover ns result ≡ sensed.cover_by (sensed.down (option_map (basis ns) index) (option_map whole_of width)) }
    ensures range { HasBits result }
{
    let Some(index) = index else {
        return Part::Whole;
    };
    let Some(width) = width else {
        return Part::Whole;
    };
    match Whole::of(width).bits() {
        Some(bits) => Part::Downward(index, bits),
        None => Part::Whole,
    }
}

// The number that stands for the lesser of two whole numbers.
fn lesser_of(a: Constant, b: Constant) -> Constant
    ensures { whole_of result ≡ meaning.lesser (whole_of a) (whole_of b) }
{
    if Whole::of(a).is_at_most(Whole::of(b)) {
        a
    } else {
        b
    }
}

// A part of a vector.
fn part_of(shape: Shape, source: Source<Node>, part: Part<Node>) -> SizedExpr
    requires { HasBits part }
    ensures { (ns : Numbering) →
        sense_of ns result ≡ sensed.covered (vector_of ns shape source) (part_cover ns part) }
{
    SizedNode {
        size: size_of(shape, &part),
        node: Node::Read(shape, source, part),
    }
}

// The size of a part: that of the vector where it is the whole, else that of bits without a sign.
fn size_of(shape: Shape, part: &Part<Node>) -> Size
    requires { HasBits part.now }
    ensures width { result.width ≡ part_width shape part.now }
    ensures signed { result.signed ≡ part_signed shape part.now }
{
    match part {
        Part::Whole => whole_size(shape),
        Part::Upward(_, bits) | Part::Downward(_, bits) => unsigned(*bits),
    }
}

/// The size of a whole vector.
pub fn whole_size(shape: Shape) -> Size
    ensures width { result.width ≡ width_of (plain_shape shape) }
    ensures signed { result.signed ≡ shape.signed }
{
    Size {
        width: shape.left.abs_diff(shape.right) + 1,
        signed: shape.signed,
    }
}

// So many bits without a sign.
fn unsigned(width: u32) -> Size
    requires { (1 ≤ width) × (width ≤ MAX_WIDTH) }
    ensures { (result.width ≡ width) × (result.signed ≡ false) }
{
    Size {
        width,
        signed: false,
    }
}

// ---- faults

// TooWide where no vector has so many bits, which then are none; nothing where an operand has a fault.
fn if_wide(place: Place, inner: Option<Found>, bits: Option<u32>) -> Option<Found>
    ensures { (w : _) → bits ≡ if_width w →
        option_map found result ≡ sensed.if_wide (view.place place) (option_map found inner) w }
{
    match (inner, bits) {
        (None, None) => Some(Found {
            place,
            kind: FaultKind::TooWide,
        }),
        (Some(_), _) | (None, Some(_)) => None,
    }
}

/// ZeroReplication where there is no copy, or TooWide where no vector has so many copies of these bits.
pub fn if_copied(
    place: Place,
    inner: Option<Found>,
    count: Option<Constant>,
    bits: Option<u32>,
) -> Option<Found>
    ensures { (w : _) → bits ≡ if_width w → option_map found result ≡
        sensed.if_copied (view.place place) (option_map found inner) (option_map whole_of count) w }
{
    let count = Whole::of(count?);
    if count.is_below_one() {
        return Some(Found {
            place,
            kind: FaultKind::ZeroReplication,
        });
    }
    if_wide(place, inner, count.times(bits))
}

// The fault of a select of bits.
fn if_covered(shape: Shape, place: Place, inner: Option<Found>, pick: &Pick) -> Option<Found>
    ensures { (ns : Numbering) → option_map found result ≡
        sensed.if_covered (plain_shape shape) (view.place place) (option_map found inner) (plain_pick ns pick.now) }
{
    match pick {
        Pick::Bit(_) => None,
        Pick::Span(a, b) => if_between(shape, place, inner, *a, *b),
        Pick::Upward(_, width) | Pick::Downward(_, width) => {
            if_copied(place, inner, *width, Some(1))
        }
    }
}

// The fault of a part from one index to another, where both are known.
fn if_between(
    shape: Shape,
    place: Place,
    inner: Option<Found>,
    a: Option<Constant>,
    b: Option<Constant>,
) -> Option<Found>
    ensures { let x = option_map whole_of a in let y = option_map whole_of b in
        option_map found result ≡ sensed.if_between (plain_shape shape) (view.place place) (option_map found inner) x y }
{
    let a = Whole::of(a?);
    let b = Whole::of(b?);
    if is_along(shape, a, b) {
        return if_wide(place, inner, a.bits_to(b));
    }
    Some(bad_select(place))
}

// Whether a select goes the way of the vector; one of equal bounds descends.
fn is_along(shape: Shape, a: Whole, b: Whole) -> bool
    ensures { result ≡ faults.is_along (plain_shape shape) (integer a) (integer b) }
{
    if shape.right <= shape.left {
        b.is_at_most(a)
    } else {
        a.is_at_most(b)
    }
}

fn bad_select(place: Place) -> Found
    ensures { found result ≡ at (view.place place) BadSelect }
{
    Found {
        place,
        kind: FaultKind::BadSelect,
    }
}

// The fault of a vector's selects: it has one at most.
fn of_vector(shape: Shape, place: Place, inner: Option<Found>, picks: &[Pick]) -> Option<Found>
    ensures { (ns : Numbering) → option_map found result ≡
        sensed.of_vector (plain_shape shape) (view.place place) (option_map found inner) (map (plain_pick ns) picks.now) }
{
    let Some((pick, more)) = picks.split_first() else {
        return None;
    };
    if !more.is_empty() {
        return Some(bad_select(place));
    }
    if_covered(shape, place, inner, pick)
}

// The fault of a name with its selects.
fn of_name(
    object: Option<Object>,
    place: Place,
    inner: Option<Found>,
    picks: &[Pick],
) -> Option<Found>
    ensures { (ns : Numbering) → option_map found result ≡
        sensed.of_name (option_map (thing ns) object) (view.place place) (option_map found inner) (map (plain_pick ns) picks.now) }
{
    let Some(object) = object else {
        return Some(Found {
            place,
            kind: FaultKind::UnknownName,
        });
    };
    match object {
        Object::Signal { shape, .. } => of_vector(shape, place, inner, picks),
        Object::Local { shape, .. } => of_vector(shape, place, inner, picks),
        Object::Memory { shape, .. } => of_word(shape, place, inner, picks),
        Object::Constant(_) => of_constant(place, picks),
        Object::Function { shape, inside, .. } => {
            if inside {
                of_vector(shape, place, inner, picks)
            } else {
                Some(Found {
                    place,
                    kind: FaultKind::BadCall,
                })
            }
        }
    }
}

// A constant has no select.
fn of_constant(place: Place, picks: &[Pick]) -> Option<Found>
    ensures { (ns : Numbering) (w : _) (g : _) (n : _) (o : _) →
        option_map found result ≡ sensed.of_name (Some (constant w g n)) (view.place place) o (map (plain_pick ns) picks.now) }
{
    if picks.is_empty() {
        return None;
    }
    Some(bad_select(place))
}

// The fault of a memory's selects: the first is the index of a word.
fn of_word(shape: Shape, place: Place, inner: Option<Found>, picks: &[Pick]) -> Option<Found>
    ensures { (ns : Numbering) → option_map found result ≡
        sensed.of_word (plain_shape shape) (view.place place) (option_map found inner) (map (plain_pick ns) picks.now) }
{
    let Some((first, rest)) = picks.split_first() else {
        return Some(bad_select(place));
    };
    match first {
        Pick::Bit(_) => of_vector(shape, place, inner, rest),
        Pick::Span(_, _) | Pick::Upward(_, _) | Pick::Downward(_, _) => Some(bad_select(place)),
    }
}
