//! The constants in sight as names that expressions read.

ghost use Rattle.std.specs.Prelude.{◌≡◌, [], List};
ghost use Rattle.vl_value.specs.Paths.{Path};
ghost use Rattle.vl_design.specs.Constants.{sight_of};
ghost use Rattle.vl_frames.specs.Marks.{around};
ghost use Rattle.vl_frames.specs.Sights.{no_objects};

use crate::frames::Frames;
use crate::mark::Worth;
use dt_core::text::Text;
use vl_width::names::{Names, Object};
use vl_width::shape::Shape;

impl Names for Frames {
    ghost sight = { λ f. sight_of (around f).known };

    ghost numbering = { λ f. no_objects };

    fn find(&self, name: &Text) -> Option<Object> {
        match self.worth(name) {
            Some(Worth::Number(number)) => Some(Object::Constant(number)),
            Some(Worth::Faulty) => None,
            None => None,
        }
    }

    // No name stands for a function, so nobody asks for an input. Each has one bit.
    fn input(&self, _function: u32, _k: u32) -> Shape {
        Shape {
            left: 0,
            right: 0,
            signed: false,
        }
    }
}
