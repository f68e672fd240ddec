//! Places of bits as nodes, and the bits there.

ghost use Rattle.std.specs.Prelude.{◌≡◌, ◌≤◌, IfOk};
ghost use Rattle.dt_core.specs.declared.limits.TheConstants.{MAX_WIDTH};
ghost use Rattle.netlist.specs.Fits.{IsWidth};
ghost use Rattle.vl_nodes.specs.Calls as calls;
ghost use Rattle.vl_value.specs.Things.{width_of};
ghost use Rattle.vl_width.specs.Objects.{plain_shape};
ghost use Rattle.vl_places.specs.Places as places;
ghost use Rattle.vl_places.specs.Steps as steps;

use bit_ops::Binary;
use dt_core::fault::NoMemory;
use netlist::design::Range;
use vl_nodes::made::Made;
use vl_nodes::nodes::Nodes;
use vl_width::shape::Shape;

/// Which indices a select covers: those from its index upward, or downward.
#[derive(Clone, Copy, Debug, PartialEq, Eq)]
pub enum Way {
    /// `[i]` and `[b +: w]`
    Upward,
    /// `[b -: w]`
    Downward,
}

/// So many bits from an index, which a node tells, signed or not.
#[derive(Clone, Copy, Debug, PartialEq, Eq)]
pub struct Varying {
    pub index: Made,
    pub signed: bool,
    pub way: Way,
    pub count: u32,
}

// An index of more bits than this is clamped. A place has room for such an index, for a sign, and for two differences.
const INDEX_WIDTH: u32 = 64;

const PLACE_WIDTH: u32 = 70;

/// Bits of a signal of this shape from an index that varies; 0 at places outside (IEEE 1364-2005, 5.2.1).
pub fn bits_by(
    nodes: &mut Nodes,
    signal: u32,
    shape: Shape,
    part: Varying,
) -> Result<Made, NoMemory>
    requires some { IsWidth part.count }
    requires index { part.index.width ≤ MAX_WIDTH }
    ensures width { IfOk result (λ m. m.width ≡ part.count) }
    ensures made { places.IsBitsBy nodes.old nodes.new signal (plain_shape shape) part result }
{
    let place = place_by(nodes, shape, part)?;
    let whole = Range {
        signal,
        low: 0,
        width: width_of(shape),
    };
    let whole = nodes.bits(whole)?;
    nodes.select(whole, place, true, part.count)
}

/// Bits of a node of this shape, such as a memory's word, from an index that varies; 0 at places outside.
pub fn node_bits_by(
    nodes: &mut Nodes,
    of: Made,
    shape: Shape,
    part: Varying,
) -> Result<Made, NoMemory>
    requires some { IsWidth part.count }
    requires index { part.index.width ≤ MAX_WIDTH }
    ensures width { IfOk result (λ m. m.width ≡ part.count) }
    ensures made { places.IsNodeBitsBy nodes.old nodes.new of (plain_shape shape) part result }
{
    let place = place_by(nodes, shape, part)?;
    nodes.select(of, place, true, part.count)
}

/// The width of a vector, in bits.
pub fn width_of(shape: Shape) -> u32
    ensures { result ≡ width_of (plain_shape shape) }
{
    shape.left.abs_diff(shape.right) + 1
}

// The place of the rightmost of the bits: its distance from the right bound.
fn place_by(nodes: &mut Nodes, shape: Shape, part: Varying) -> Result<Made, NoMemory>
    requires some { IsWidth part.count }
    requires index { part.index.width ≤ MAX_WIDTH }
    ensures width { IfOk result (λ m. m.width ≡ PLACE_WIDTH) }
    ensures made { let f = steps.place (plain_shape shape) part.way part.count part.signed part.index.width in
        calls.IsOfOne nodes.old nodes.new part.index PLACE_WIDTH f result }
{
    let ascending = shape.left < shape.right;
    let index = near(nodes, part.index, part.signed)?;
    let first = difference(nodes, index, shape.right, ascending)?;
    difference(nodes, first, behind(ascending, part), false)
}

// How far the rightmost bit lies to the right of the index.
fn behind(ascending: bool, part: Varying) -> u32
    requires { 1 ≤ part.count }
    ensures { result ≡ steps.behind ascending part.way part.count }
{
    match (ascending, part.way) {
        (false, Way::Upward) | (true, Way::Downward) => 0,
        (false, Way::Downward) | (true, Way::Upward) => part.count - 1,
    }
}

// The node less a number, or the number less the node.
fn difference(nodes: &mut Nodes, of: Made, number: u32, turned: bool) -> Result<Made, NoMemory>
    requires { of.width ≡ PLACE_WIDTH }
    ensures width { IfOk result (λ m. m.width ≡ PLACE_WIDTH) }
    ensures made { calls.IsOfOne nodes.old nodes.new of PLACE_WIDTH (steps.difference turned number) result }
{
    let number = nodes.number(PLACE_WIDTH, u128::from(number))?;
    if turned {
        nodes.binary(Binary::Sub, true, number, of)
    } else {
        nodes.binary(Binary::Sub, true, of, number)
    }
}

// The index with as many bits as a place takes.
fn near(nodes: &mut Nodes, index: Made, signed: bool) -> Result<Made, NoMemory>
    requires { index.width ≤ MAX_WIDTH }
    ensures width { IfOk result (λ m. m.width ≡ PLACE_WIDTH) }
    ensures made { calls.IsOfOne nodes.old nodes.new index PLACE_WIDTH (steps.near signed index.width) result }
{
    if index.width <= INDEX_WIDTH {
        return nodes.extend(index, signed, PLACE_WIDTH);
    }
    let clamped = clamped(nodes, index, signed)?;
    nodes.extend(clamped, signed, PLACE_WIDTH)
}

// The index where 64 bits hold it, else one as far outside as they can tell.
fn clamped(nodes: &mut Nodes, index: Made, signed: bool) -> Result<Made, NoMemory>
    requires least { INDEX_WIDTH ≤ index.width }
    requires most { index.width ≤ MAX_WIDTH }
    ensures width { IfOk result (λ m. m.width ≡ INDEX_WIDTH) }
    ensures made { calls.IsOfOne nodes.old nodes.new index INDEX_WIDTH (steps.clamped signed index.width) result }
{
    let low = nodes.cut(index, INDEX_WIDTH)?;
    let again = nodes.extend(low, signed, index.width)?;
    let is_held = nodes.binary(Binary::Eq, signed, again, index)?;
    let far = nodes.number(INDEX_WIDTH, i64::MAX as u128)?;
    nodes.choose(is_held, low, far)
}
