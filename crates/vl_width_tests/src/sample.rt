//! Names for the tests.

ghost use Rattle.std.specs.Prelude.{◌≡◌, false};
ghost use Rattle.vl_width_tests.specs.Sample as sample;

use dt_core::bits::Bits;
use dt_core::text::Text;
use vl_width::names::{Names, Object};
use vl_width::number::Constant;
use vl_width::shape::Shape;

/// Parameters `P`, 32'sd3, and `Q`, 4'sd15, and a vector `a`.
pub struct Sample;

fn byte() -> Shape
    ensures { (result.left ≡ 7) × (result.right ≡ 0) × (result.signed ≡ false) }
{
    Shape {
        left: 7,
        right: 0,
        signed: false,
    }
}

impl Names for Sample {
    ghost sight = { λ it. sample.sight };

    ghost numbering = { λ it. sample.numbering };

    fn find(&self, name: &Text) -> Option<Object> {
        match name.bytes() {
            b"P" => Some(Object::Constant(Constant {
                bits: Bits::of(32, 3),
                signed: true,
            })),
            b"Q" => Some(Object::Constant(Constant {
                bits: Bits::of(4, 15),
                signed: true,
            })),
            b"a" => Some(Object::Signal {
                number: 0,
                shape: byte(),
            }),
            _ => None,
        }
    }

    fn input(&self, _function: u32, _k: u32) -> Shape {
        byte()
    }
}
