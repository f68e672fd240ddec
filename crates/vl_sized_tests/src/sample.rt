//! Names of all kinds of objects and all shapes of vectors, with a value for each.

ghost use Rattle.std.specs.Prelude.{◌≡◌, ◌≤◌, ◌<◌, ◌^◌, ◌+◌, ◌-◌, Some};
ghost use Rattle.std.specs.Option.{option_map};
ghost use Rattle.dt_core.specs.declared.limits.TheConstants.{MAX_BOUND, MAX_WIDTH};
ghost use Rattle.vl_width.specs.Objects.{plain_shape, thing};
ghost use Rattle.vl_value.specs.Things.{constant};
ghost use Rattle.vl_sized_tests.specs.Sample as sample;

use dt_core::bits::Bits;
use dt_core::text::Text;
use vl_sized::value::Values;
use vl_width::names::{Names, Object};
use vl_width::number::Constant;
use vl_width::shape::Shape;

/// The names that `bench/expressions.py` uses too: signals `s0` to `s19`, memories `m0` and `m1`, parameters `P`, `Q` and `R`,
/// functions `f` and `g`. Its field has the values of the signals, and then those of the words of each memory.
#[derive(Clone, Copy)]
pub struct Sample<'a> {
    pub values: &'a [u128],
}

fn vector(left: u32, right: u32, signed: bool) -> Shape
    requires bounds { (left ≤ MAX_BOUND) × (right ≤ MAX_BOUND) }
    requires wide { (left - right) + (right - left) + 1 ≤ MAX_WIDTH }
    ensures { plain_shape result ≡ sample.vector left right signed }
{
    Shape {
        left,
        right,
        signed,
    }
}

fn signal(number: u32, left: u32, right: u32, signed: bool) -> Option<Object>
    requires bounds { (left ≤ MAX_BOUND) × (right ≤ MAX_BOUND) }
    requires wide { (left - right) + (right - left) + 1 ≤ MAX_WIDTH }
    ensures { option_map (thing sample.numbering) result ≡ sample.of_signal number left right signed }
{
    Some(Object::Signal {
        number,
        shape: vector(left, right, signed),
    })
}

fn parameter(width: u32, signed: bool, value: u128) -> Option<Object>
    requires { (1 ≤ width) × (width ≤ MAX_WIDTH) × (value < 2 ^ width) }
    ensures { option_map (thing sample.numbering) result ≡ Some (constant width signed value) }
{
    Some(Object::Constant(Constant {
        bits: Bits::of(width, value),
        signed,
    }))
}

// The value of a number, 0 where there is none.
fn held(values: &[u128], first: u32, k: u32) -> u128
    ensures { result ≡ sample.held values.now (first + k) }
{
    let place = u64::from(first) + u64::from(k);
    values.get(place as usize).copied().unwrap_or(0)
}

impl<'a> Names for Sample<'a> {
    ghost sight = { λ it. sample.sight };

    ghost numbering = { λ it. sample.numbering };

    fn find(&self, name: &Text) -> Option<Object> {
        match name.bytes() {
            b"s0" => signal(0, 0, 0, false),
            b"s1" => signal(1, 3, 0, false),
            b"s2" => signal(2, 3, 0, true),
            b"s3" => signal(3, 7, 0, false),
            b"s4" => signal(4, 7, 0, true),
            b"s5" => signal(5, 0, 7, false),
            b"s6" => signal(6, 11, 4, true),
            b"s7" => signal(7, 15, 0, false),
            b"s8" => signal(8, 15, 0, true),
            b"s9" => signal(9, 31, 0, false),
            b"s10" => signal(10, 31, 0, true),
            b"s11" => signal(11, 32, 0, false),
            b"s12" => signal(12, 32, 0, true),
            b"s13" => signal(13, 63, 0, false),
            b"s14" => signal(14, 63, 0, true),
            b"s15" => signal(15, 64, 0, false),
            b"s16" => signal(16, 99, 0, true),
            b"s17" => signal(17, 127, 0, false),
            b"s18" => signal(18, 127, 0, true),
            b"s19" => signal(19, 2, 33, false),
            b"m0" => Some(Object::Memory {
                number: 0,
                shape: vector(7, 0, false),
                first: 0,
                last: 15,
            }),
            b"m1" => Some(Object::Memory {
                number: 1,
                shape: vector(32, 0, true),
                first: 12,
                last: 5,
            }),
            b"P" => parameter(32, true, 3),
            b"Q" => parameter(4, true, 15),
            b"R" => parameter(8, false, 200),
            b"f" => Some(Object::Function {
                number: 0,
                shape: vector(11, 0, true),
                inside: false,
                inputs: 2,
            }),
            b"g" => Some(Object::Function {
                number: 1,
                shape: vector(64, 0, false),
                inside: false,
                inputs: 1,
            }),
            _ => None,
        }
    }

    fn input(&self, function: u32, k: u32) -> Shape {
        if function != 0 {
            return vector(3, 0, true);
        }
        if k == 0 {
            vector(7, 0, false)
        } else {
            vector(15, 0, true)
        }
    }
}

impl<'a> Values for Sample<'a> {
    ghost numbering = { λ it. sample.numbering };

    ghost moment = { λ it. sample.moment it.values.now };

    fn signal(&self, number: u32) -> u128 {
        held(self.values, number, 0)
    }

    fn local(&self, number: u32) -> u128 {
        held(self.values, number, 0)
    }

    fn function(&self, _number: u32) -> u128 {
        0
    }

    fn word(&self, memory: u32, k: u32) -> u128 {
        if memory == 0 {
            held(self.values, 20, k)
        } else {
            held(self.values, 36, k)
        }
    }

    fn call(&self, function: u32, arguments: &[u128]) -> u128 {
        let first = held(arguments, 0, 0);
        if function == 0 {
            let second = held(arguments, 0, 1);
            (first % 4096 + second % 4096) % 4096
        } else {
            first % 16 * 2_305_843_009_213_693_952 + 5
        }
    }
}
