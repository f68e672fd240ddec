//! Sized expressions: names are numbers, each operand that is evaluated at a size of its own has that size written, and all
//! others have the size of what they stand in.

use bit_ops::{Binary, Unary};
use dt_core::bits::Bits;
use sqlite_items::{Boxed, Items};
use vl_width::number::Constant;
use vl_width::shape::Shape;
use vl_width::size::Size;

/// A node that is evaluated at this size.
#[derive(Drop)]
pub struct SizedNode<T> {
    pub size: Size,
    pub node: T,
}

/// An expression at its size.
pub type SizedExpr = SizedNode<Node>;

/// What has a size of its own is extended to the size at which the node is evaluated, by its sign where that is signed
/// too: numbers, reads, calls, what a system function gives, braces, and the bits of reductions and comparisons.
#[derive(Drop)]
pub enum Node {
    Number(Constant),
    /// Bits of a vector, which has this shape.
    Read(Shape, Source<Node>, Part<Node>),
    /// A function's number, the shape of its result, its arguments, and the shapes of the inputs that take them: each is
    /// evaluated at the larger of both widths, and cut.
    Call(u32, Shape, Items<SizedNode<Node>>, Items<Shape>),
    /// `$signed`, where true, or `$unsigned`.
    Cast(bool, Boxed<SizedNode<Node>>),
    /// `$clog2`
    Logarithm(Boxed<SizedNode<Node>>),
    /// `{a, b}`
    Concat(Items<SizedNode<Node>>),
    /// So many copies of `{a, b}`.
    Copies(u32, Items<SizedNode<Node>>),
    /// A reduction or `!`: one bit of an operand at its own size.
    Reduced(Unary, Boxed<SizedNode<Node>>),
    /// Comparisons, `&&` and `||` from left to right: one bit each.
    Tests(Boxed<Node>, Items<Test<Node>>),
    /// `+`, `-` or `~` at the size of the node.
    Unary(Unary, Boxed<Node>),
    /// Operators at the size of the node, from left to right.
    Chain(Boxed<Node>, Items<Step<Node>>),
    /// The value of the first choice whose condition holds, or the last one, at the size of the node.
    Choose(Items<Case<Node>>, Boxed<Node>),
}

/// Where a vector's value comes from.
#[derive(Drop)]
pub enum Source<T> {
    /// A net or a variable of this number.
    Signal(u32),
    /// A variable of a function, or a loop variable.
    Local(u32),
    /// The variable of a function's name, in its own body.
    Function(u32),
    /// A word of a memory: its number, the indices of its first and its last word, and the index.
    Word(u32, u32, u32, Index<T>),
}

/// An index: the same in each moment, or not.
#[derive(Drop)]
pub enum Index<T> {
    Fixed(Constant),
    Varying(Boxed<SizedNode<T>>),
}

/// Which bits of a vector are read.
#[derive(Drop)]
pub enum Part<T> {
    Whole,
    /// `[b +: w]`: so many indices from one upward; `[i]` and `[a:b]` too.
    Upward(Index<T>, u32),
    /// `[b -: w]`: so many indices from one downward.
    Downward(Index<T>, u32),
}

/// An operator that gives one bit, the size at which its left operand is evaluated, and its right operand.
#[derive(Drop)]
pub struct Test<T> {
    pub operator: Binary,
    pub left: Size,
    pub right: SizedNode<T>,
}

/// What is done to a value at the size of the node.
#[derive(Drop)]
pub enum Step<T> {
    /// An operator, whose right operand has the same size.
    Alike(Binary, T),
    /// A shift by a distance.
    Shift(Binary, SizedNode<T>),
}

/// A condition, and the value where it holds, with the size that it has of its own.
#[derive(Drop)]
pub struct Case<T> {
    pub condition: SizedNode<T>,
    pub value: SizedNode<T>,
}
