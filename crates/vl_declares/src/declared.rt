//! Declarations.

ghost use Rattle.std.specs.Prelude.{◌≡◌, ◌++◌, ◌∷◌, [], OnOk, map};
ghost use Rattle.vl_tree.specs.SyntaxView as view;
ghost use Rattle.vl_design.specs.Declarations as design;
ghost use Rattle.vl_declares.specs.Plain.{plain, all_plain};

use std::alloc::AllocError;
use vl_frames::mark::Worth;
use vl_span::span::Span;
use vl_tree::expression::Name;
use vl_tree::item::{Direction, Kept};

/// `wire`, `reg` and `integer`.
#[derive(Clone, Copy, Debug, PartialEq, Eq)]
pub enum Kind {
    Net,
    Register,
    Integer,
}

/// A name with a sign and a range.
#[derive(Clone, Copy)]
pub struct Local<'a> {
    pub name: &'a Name,
    pub signed: bool,
    pub span: Span,
}

/// A function: its result, its inputs in order, and these and its other variables in order of text.
#[derive(Drop)]
pub struct Routine<'a> {
    pub result: Local<'a>,
    pub inputs: Vec<Local<'a>>,
    pub locals: Vec<Local<'a>>,
}

/// One declaration of one name.
#[derive(Drop)]
pub enum Declared<'a> {
    /// A port, and `wire` or `reg` where its declaration says one.
    Port(Direction, Option<Kept>, Local<'a>),
    /// A net or a variable.
    Object(Kind, Local<'a>),
    /// A memory: its words, and the range of their indices.
    Memory(Local<'a>, Span),
    Parameter(&'a Name, Worth),
    Genvar(&'a Name),
    Routine(Routine<'a>),
    /// An instance, or the label of a generate block that is there.
    Inner(&'a Name),
}

/// Appends a declaration.
pub fn push<'a>(declared: &mut Vec<Declared<'a>>, one: Declared<'a>) -> Result<(), AllocError>
    ensures { OnOk result (all_plain declared.new.items ≡ all_plain declared.old.items ++ plain one.entry ∷ []) }
{
    match declared.push(one) {
        Ok(()) => Ok(()),
        Err(_) => Err(AllocError),
    }
}
