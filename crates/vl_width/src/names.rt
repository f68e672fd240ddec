//! Names in sight, and what they stand for.

ghost use Rattle.std.specs.Prelude.{◌≡◌, ◌<◌, Some, IfSome, length, slice_get};
ghost use Rattle.std.specs.Option.{option_map};
ghost use Rattle.vl_value.specs.Constant.{Sight};
ghost use Rattle.vl_width.specs.Objects.{Numbering, thing, plain_shape, HasInputs};

use crate::number::Constant;
use crate::shape::Shape;
use dt_core::text::Text;

/// What a name stands for. A number tells which object of its kind.
#[derive(Clone, Copy, Debug, PartialEq, Eq)]
pub enum Object {
    /// A net or a variable.
    Signal {
        number: u32,
        shape: Shape,
    },
    /// A memory, with the shape of its words and the indices of its first and its last one.
    Memory {
        number: u32,
        shape: Shape,
        first: u32,
        last: u32,
    },
    /// A parameter, a genvar, or a loop variable in the body of its loop.
    Constant(Constant),
    /// A variable of a function, or a loop variable outside of its loop.
    Local {
        number: u32,
        shape: Shape,
    },
    /// A function, with the shape of its result and the number of its inputs; `inside` where the name stands in its own
    /// body.
    Function {
        number: u32,
        shape: Shape,
        inside: bool,
        inputs: u32,
    },
}

/// Names in sight.
pub trait Names {
    /// What each name stands for.
    ghost sight: { Self → Sight };
    /// Which objects the numbers tell.
    ghost numbering: { Self → Numbering };

    /// What a name stands for; none where nothing in sight declares it.
    fn find(&self, name: &Text) -> Option<Object>
        ensures thing { option_map (thing (numbering self.now)) result ≡ sight self.now name.now }
        ensures inputs { IfSome result (HasInputs (numbering self.now)) };

    /// The shape of input `k`, from 0, of the function of a number.
    fn input(&self, function: u32, k: u32) -> Shape
        requires { k < length ((numbering self.now).inputs function) }
        ensures { Some (plain_shape result) ≡ slice_get ((numbering self.now).inputs function) k };
}
