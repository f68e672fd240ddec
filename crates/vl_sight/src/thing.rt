//! What names stand for.

ghost use Rattle.std.specs.Prelude.{◌≡◌, List, Some};
ghost use Rattle.vl_value.specs.Paths.{Text};
ghost use Rattle.vl_design.specs.LoopVariables.{object_path};
ghost use Rattle.vl_design.specs.Scopes as design;
ghost use Rattle.vl_sight.specs.Seen.{inside_thing, own_path, owned_path, seen_thing};

use vl_declares::declared::Routine;
use vl_objects::object::Range;
use vl_width::number::Constant;

/// What a scope has under a name.
#[derive(Clone, Copy)]
pub enum Thing<'s, 'a> {
    /// A net or a variable.
    Signal(Range),
    /// A memory: the range of a word's bits, and the indices of its first and its last word.
    Memory(Range, u32, u32),
    /// A parameter, or the genvar of the scope's turn.
    Constant(Constant),
    /// A function, and whether the name stands in its own body.
    Function(bool, &'s Routine<'a>),
}

/// What a name stands for: a thing of the scope of a number.
#[derive(Clone, Copy)]
pub struct Seen<'s, 'a> {
    pub scope: u32,
    pub thing: Thing<'s, 'a>,
}

/// What a name stands for in the body of a function.
#[derive(Clone, Copy)]
pub enum Inside<'s, 'a> {
    /// An input or a variable of the function, which the scope of a number declares.
    Local(u32, Range),
    /// What the name stands for in the function's scope, or the function itself.
    Around(Seen<'s, 'a>),
}

/// What declares the net or variable that a name stands for in the body of a function.
#[derive(Clone, Copy, Debug, PartialEq, Eq)]
pub enum Owner {
    /// The scope of a number.
    Scope(u32),
    /// The function, which the scope of a number declares.
    Function(u32),
}

impl<'s, 'a> Seen<'s, 'a> {
    /// The scope whose net or variable it is, if it is one.
    pub fn owner(self) -> Option<u32>
        ensures { (ss : List design.Scope) → (x : Text)
            → object_path (Some (seen_thing ss x self.entry)) ≡ own_path ss x result }
    {
        match self.thing {
            Thing::Signal(_) => Some(self.scope),
            Thing::Memory(_, _, _) => None,
            Thing::Constant(_) => None,
            Thing::Function(_, _) => None,
        }
    }
}

impl<'s, 'a> Inside<'s, 'a> {
    /// What declares the net or variable that it is, if it is one.
    pub fn owner(self) -> Option<Owner>
        ensures { (ss : List design.Scope) → (f x : Text)
            → object_path (Some (inside_thing ss f x self.entry)) ≡ owned_path ss f x result }
    {
        match self {
            Inside::Local(scope, _) => Some(Owner::Function(scope)),
            Inside::Around(seen) => around(seen.owner()),
        }
    }
}

fn around(scope: Option<u32>) -> Option<Owner>
    ensures { (ss : List design.Scope) → (f x : Text)
        → own_path ss x scope ≡ owned_path ss f x result }
{
    let scope = scope?;
    Some(Owner::Scope(scope))
}
