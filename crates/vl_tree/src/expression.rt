//! Expressions of the whole language. Each place is that of the node's first token, where nothing else is said.

use crate::token::Literal;
use bit_ops::{Binary, Unary};
use dt_core::place::Place;
use dt_core::text::Text;
use sqlite_items::{Boxed, Items};

/// A name, and where it stands (IEEE 1364-2005, A.9.3).
#[derive(Drop)]
pub struct Name {
    pub text: Text,
    pub place: Place,
}

/// A function of the language (17.8, 17.11.1).
#[derive(Clone, Copy, Debug, PartialEq, Eq)]
pub enum SystemFunction {
    /// `$signed`
    ToSigned,
    /// `$unsigned`
    ToUnsigned,
    /// `$clog2`
    Clog2,
}

/// An operator, where it stands, and its right operand.
#[derive(Drop)]
pub struct Link<E> {
    pub operator: Binary,
    pub place: Place,
    pub operand: E,
}

/// A condition, the place of its `?`, and the value where it holds.
#[derive(Drop)]
pub struct Choice<E> {
    pub condition: E,
    pub place: Place,
    pub value: E,
}

/// What stands between `[` and `]`.
#[derive(Drop)]
pub enum Select<E> {
    /// `[i]`
    Index(E),
    /// `[a:b]`
    Part(E, E),
    /// `[b +: w]`
    Upward(E, E),
    /// `[b -: w]`
    Downward(E, E),
}

/// A select, with the place of its `[`.
#[derive(Drop)]
pub struct Selected<E> {
    pub place: Place,
    pub select: Select<E>,
}

/// An expression (A.8.3, A.8.4).
#[derive(Drop)]
pub enum Expr {
    Number(Place, Literal),
    /// A name with its selects, from left to right.
    Read(Name, Items<Selected<Expr>>),
    /// A function's name and its arguments, one at least.
    Call(Name, Items<Expr>),
    /// `$clog2(n)` and the like.
    System(Place, SystemFunction, Boxed<Expr>),
    /// `(e)`
    Group(Place, Boxed<Expr>),
    /// `{a, b}`, one at least.
    Concat(Place, Items<Expr>),
    /// `{n {a, b}}`
    Repeat(Place, Boxed<Expr>, Items<Expr>),
    /// An operator before its operand.
    Unary(Place, Unary, Boxed<Expr>),
    /// Operands with operators of one level between them, taken from left to right: one link at least.
    Chain(Boxed<Expr>, Items<Link<Expr>>),
    /// The choices of `a ? b : c ? d : e`, one at least, and its last value.
    Choose(Items<Choice<Expr>>, Boxed<Expr>),
}

/// `[left:right]`, with the place of its `[` (A.2.5).
#[derive(Drop)]
pub struct Range {
    pub place: Place,
    pub left: Expr,
    pub right: Expr,
}
