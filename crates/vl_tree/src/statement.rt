//! Statements of the whole language. Each place is that of the node's first token, where nothing else is said.

use crate::expression::{Expr, Name, Selected};
use dt_core::place::Place;
use dt_core::text::Text;
use sqlite_items::{Boxed, Items};

/// What an assignment writes (IEEE 1364-2005, A.8.5).
#[derive(Drop)]
pub enum Target {
    /// A name with its selects, from left to right.
    Name(Name, Items<Selected<Expr>>),
    /// `{a, b}`, one at least.
    Targets(Place, Items<Target>),
}

/// Which assignment (A.6.2).
#[derive(Clone, Copy, Debug, PartialEq, Eq)]
pub enum Assignment {
    /// `=`
    Blocking,
    /// `<=`
    Nonblocking,
}

/// Which print (17.1).
#[derive(Clone, Copy, Debug, PartialEq, Eq)]
pub enum Print {
    /// `$display`
    Display,
    /// `$write`
    Write,
}

/// What stands after `$display`.
#[derive(Drop)]
pub enum Printed {
    Bare,
    /// `()`
    EmptyList,
    /// The place of the format, the format, and its values.
    Format(Place, Text, Items<Expr>),
}

/// What stands after `$stop` (17.4).
#[derive(Drop)]
pub enum Stopped {
    NoArgument,
    /// `()`
    EmptyArgument,
    Argument(Expr),
}

/// The header of a loop (A.4.2, A.6.8): `(variable = first; condition; stepped = step)`.
#[derive(Drop)]
pub struct Loop {
    pub variable: Name,
    pub first: Expr,
    pub condition: Expr,
    pub stepped: Name,
    pub step: Expr,
}

/// The place of an `if`, its condition, and the statement where it is the first that holds.
#[derive(Drop)]
pub struct Branch<S> {
    pub place: Place,
    pub condition: Expr,
    pub body: S,
}

/// An arm of a `case` (A.6.7).
#[derive(Drop)]
pub enum Arm<S> {
    /// Its labels, one at least.
    Labels(Items<Expr>, S),
    /// `default`, with a colon where true.
    Default(Place, bool, S),
}

/// A statement (A.6.4).
#[derive(Drop)]
pub enum Stmt {
    /// `;`
    Empty(Place),
    /// `begin : label` .. `end`
    Block(Place, Option<Name>, Items<Stmt>),
    /// `if` .. `else if` .. `else`: one branch at least.
    Conditional(Items<Branch<Stmt>>, Option<Boxed<Stmt>>),
    /// `case`, or `casez` where true: the selector, and its arms, one at least.
    Select(Place, bool, Expr, Items<Arm<Stmt>>),
    /// `for`
    Loop(Place, Loop, Boxed<Stmt>),
    /// The target, the assignment, the place of `=` or `<=`, and the value.
    Assign(Target, Assignment, Place, Expr),
    /// `$display` and `$write`
    Print(Place, Print, Printed),
    /// `$fwrite`: the file, the place of the format, the format, and its values.
    FilePrint(Place, Expr, Place, Text, Items<Expr>),
    /// `$stop`
    Stop(Place, Stopped),
    /// `$fatal`, with `()` where true.
    Fatal(Place, bool),
}
