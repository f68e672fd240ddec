//! What a scope tells of a name.

ghost use Rattle.std.specs.Prelude.{◌≡◌};
ghost use Rattle.std.specs.Option.{option_map};
ghost use Rattle.vl_frames.specs.Marks.{plain_worth, worth_of};

use vl_width::number::Constant;

/// What a constant is worth.
#[derive(Clone, Copy, Debug, PartialEq, Eq)]
pub enum Worth {
    Number(Constant),
    /// It rests on a fault.
    Faulty,
}

/// What a scope has under a name, as far as constants go.
#[derive(Clone, Copy, Debug, PartialEq, Eq)]
pub enum Mark {
    /// A net, a variable, a memory, a port or a function, which hides an outer constant.
    Object,
    Constant(Worth),
}

impl Mark {
    /// What a constant of the name is worth; none where an object has the name.
    pub fn worth(self) -> Option<Worth>
        ensures { option_map plain_worth result ≡ worth_of self }
    {
        match self {
            Mark::Object => None,
            Mark::Constant(worth) => Some(worth),
        }
    }
}
