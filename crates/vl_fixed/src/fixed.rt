//! Bits from a fixed index.

ghost use Rattle.std.specs.Prelude.{◌≡◌, IfOk};
ghost use Rattle.netlist.specs.Fits.{IsWidth};
ghost use Rattle.vl_value.specs.Things.{width_of};
ghost use Rattle.vl_width.specs.Objects.{plain_shape};
ghost use Rattle.vl_sized.specs.Nodes.{whole_of};
ghost use Rattle.vl_sized.specs.Worth.{IsWithin, Stands};
ghost use Rattle.vl_places.specs.Places.{least_index};
ghost use Rattle.vl_fixed.specs.Fixed.{IsFixedBits};

use dt_core::fault::NoMemory;
use vl_nodes::made::Made;
use vl_nodes::nodes::Nodes;
use vl_places::places::{Way, width_of};
use vl_sized::numbers::place_of;
use vl_sized::whole::Whole;
use vl_vectors::vectors::bits_at;
use vl_width::number::Constant;
use vl_width::shape::Shape;

/// So many bits of a signal of this shape, from an index upward or downward; 0 at places outside (IEEE 1364-2005, 5.2.1).
pub fn bits_from(
    nodes: &mut Nodes,
    signal: u32,
    shape: Shape,
    index: Constant,
    way: Way,
    count: u32,
) -> Result<Made, NoMemory>
    requires { IsWidth count }
    ensures width { IfOk result (λ m. m.width ≡ count) }
    ensures made { let z = whole_of index in
        IsFixedBits nodes.old nodes.new signal (plain_shape shape) way z count result }
{
    match least_of(index, way, count) {
        Some(least) => {
            let place = place_of(shape, least, count);
            bits_at(nodes, signal, width_of(shape), place, count)
        }
        None => nodes.number(count, 0),
    }
}

// The least of the indices that are covered; none where it is so far away that no bit of a vector lies there.
fn least_of(index: Constant, way: Way, count: u32) -> Option<i64>
    ensures stands { Stands (least_index way (whole_of index) count) result }
    ensures within { IsWithin result }
{
    let whole = Whole::of(index);
    match way {
        Way::Upward => whole.near(),
        Way::Downward => whole.down_from(count),
    }
}
