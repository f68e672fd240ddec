//! Numbers and bits of vectors as nodes.

ghost use Rattle.std.specs.Prelude.{◌≡◌, ◌-◌, pos, negsuc, ◌<◌, ◌≤◌, ◌+◌, ◌^◌, unsigned_abs, slice_get, Some, IfOk};
ghost use Rattle.dt_core.specs.declared.limits.TheConstants.{MAX_WIDTH};
ghost use Rattle.netlist.specs.Fits.{IsWidth};
ghost use Rattle.bit_ops.specs.Operators as ops;
ghost use Rattle.vl_nodes.specs.Calls as calls;
ghost use Rattle.vl_nodes.specs.Sense.{Ground};
ghost use Rattle.vl_width.specs.Terms as terms;
ghost use Rattle.vl_vectors.specs.Vectors as vectors;

use dt_core::fault::NoMemory;
use dt_core::limits::MAX_WIDTH;
use netlist::design::Range;
use vl_nodes::made::Made;
use vl_nodes::nodes::Nodes;
use vl_width::number::Constant;
use vl_width::size::{Size, both_signed};
use vl_width::term::sized;

/// A node at a size: extended by its sign where it is signed and so is the size, or cut.
pub fn at_size(nodes: &mut Nodes, of: Made, signed: bool, size: Size) -> Result<Made, NoMemory>
    requires { of.width ≤ MAX_WIDTH }
    ensures width { IfOk result (λ m. m.width ≡ size.width) }
    ensures made { calls.IsOfOne nodes.old nodes.new of size.width (vectors.at_size of.width signed size) result }
{
    let by_sign = both_signed(signed, size.signed);
    if of.width <= size.width {
        nodes.extend(of, by_sign, size.width)
    } else {
        cut_at(nodes, of, by_sign, size)
    }
}

// A node of more bits than the size has.
fn cut_at(nodes: &mut Nodes, of: Made, by_sign: bool, size: Size) -> Result<Made, NoMemory>
    requires { of.width ≤ MAX_WIDTH }
    ensures width { IfOk result (λ m. m.width ≡ size.width) }
    ensures made { calls.IsOfOne nodes.old nodes.new of size.width (ops.extend by_sign of.width size.width) result }
{
    let wide = nodes.extend(of, by_sign, MAX_WIDTH)?;
    nodes.cut(wide, size.width)
}

/// A number at a size.
pub fn number_at(nodes: &mut Nodes, number: Constant, size: Size) -> Result<Made, NoMemory>
    ensures width { IfOk result (λ m. m.width ≡ size.width) }
    ensures made { let n = terms.number_at number size.width size.signed in
        calls.IsNumber nodes.old nodes.new size.width n result }
{
    nodes.number(size.width, sized(number, size).value())
}

/// So many bits of a signal of this width, from a fixed place upward; those at places outside are 0.
pub fn bits_at(
    nodes: &mut Nodes,
    signal: u32,
    width: u32,
    place: i64,
    count: u32,
) -> Result<Made, NoMemory>
    requires wide { IsWidth width }
    requires some { IsWidth count }
    ensures width { IfOk result (λ m. m.width ≡ count) }
    ensures made { vectors.IsBitsAt nodes.old nodes.new signal width place count result }
{
    let distance = place.unsigned_abs();
    if place < 0 {
        below(nodes, signal, width, distance, count)
    } else {
        above(nodes, signal, width, distance, count)
    }
}

// The same from a place at or above the signal's lowest bit.
fn above(nodes: &mut Nodes, signal: u32, width: u32, low: u64, count: u32) -> Result<Made, NoMemory>
    requires wide { IsWidth width }
    requires some { IsWidth count }
    ensures width { IfOk result (λ m. m.width ≡ count) }
    ensures made { vectors.IsBitsAt nodes.old nodes.new signal width (pos low) count result }
{
    if low >= u64::from(width) {
        return nodes.number(count, 0);
    }
    let low = low as u32;
    let inside = count.min(width - low);
    let range = Range {
        signal,
        low,
        width: inside,
    };
    let bits = nodes.bits(range)?;
    nodes.extend(bits, false, count)
}

// The same from so many places below it, of which there is one at least.
fn below(
    nodes: &mut Nodes,
    signal: u32,
    width: u32,
    under: u64,
    count: u32,
) -> Result<Made, NoMemory>
    requires wide { IsWidth width }
    requires some { IsWidth count }
    requires under { 1 ≤ under }
    ensures width { IfOk result (λ m. m.width ≡ count) }
    ensures made { vectors.IsBitsAt nodes.old nodes.new signal width (negsuc (under - 1)) count result }
{
    if under >= u64::from(count) {
        return nodes.number(count, 0);
    }
    let under = under as u32;
    let bits = above(nodes, signal, width, 0, count - under)?;
    let zeros = nodes.number(under, 0)?;
    nodes.concat(bits, zeros)
}
