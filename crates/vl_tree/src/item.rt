//! Modules and their items, of the whole language. Each place is that of the node's first token, where nothing else is
//! said.

use crate::expression::{Expr, Name, Range};
use crate::statement::{Loop, Stmt, Target};
use dt_core::place::Place;
use sqlite_items::{Boxed, Items};

/// A direction (IEEE 1364-2005, A.2.1.2).
#[derive(Clone, Copy, Debug, PartialEq, Eq)]
pub enum Direction {
    Input,
    Output,
}

/// `wire` or `reg`, where a declaration of a direction says one.
#[derive(Clone, Copy, Debug, PartialEq, Eq)]
pub enum Kept {
    Wire,
    Reg,
}

/// A declaration of a direction, as `input reg signed [7:0]`.
#[derive(Drop)]
pub struct Directed {
    pub place: Place,
    pub direction: Direction,
    pub kept: Option<Kept>,
    pub signed: bool,
    pub range: Option<Range>,
}

/// A parameter of a module's header (A.1.3).
#[derive(Drop)]
pub enum HeaderParameter {
    /// `parameter signed [7:0] P = 1`: the sign, the range, the name and the value.
    Declared(Place, bool, Option<Range>, Name, Expr),
    /// `P = 1` after another.
    Next(Name, Expr),
}

/// A port of a module's header (A.1.3).
#[derive(Drop)]
pub enum Port {
    Declared(Directed, Name),
    Named(Name),
}

/// A name and its value (A.2.4).
#[derive(Drop)]
pub struct Valued {
    pub name: Name,
    pub value: Expr,
}

/// A net and its value, if it has one (A.2.3).
#[derive(Drop)]
pub struct Net {
    pub name: Name,
    pub value: Option<Expr>,
}

/// A variable, one with a first value, or a memory (A.2.2.1).
#[derive(Drop)]
pub enum Variable {
    Plain(Name),
    Valued(Name, Expr),
    Memory(Name, Range),
}

/// A continuous assignment: the target, the place of `=`, and the value (A.6.1).
#[derive(Drop)]
pub struct Driven {
    pub target: Target,
    pub place: Place,
    pub value: Expr,
}

/// An edge, with the place of its word (A.6.5).
#[derive(Clone, Copy, Debug, PartialEq, Eq)]
pub enum Edge {
    /// `posedge`
    Positive(Place),
    /// `negedge`
    Negative(Place),
    No,
}

/// An edge of a signal.
#[derive(Drop)]
pub struct Sensed {
    pub edge: Edge,
    pub signal: Expr,
}

/// What an `always` block waits for (A.6.5).
#[derive(Drop)]
pub enum Event {
    /// `@*`
    AnyRead,
    /// `@(*)`
    AnyReadList,
    /// `@(edge or edge)`, one at least.
    Sensed(Items<Sensed>),
}

/// `.name(value)`, or `.name()`, with the place of its dot (A.4.1).
#[derive(Drop)]
pub struct NamedBind {
    pub place: Place,
    pub name: Name,
    pub value: Option<Expr>,
}

/// Connections of an instance, or values of its parameters: one at least.
#[derive(Drop)]
pub enum Binds {
    Ordered(Items<Expr>),
    ByName(Items<NamedBind>),
}

/// An instance's name and what stands in its parentheses (A.4.1).
#[derive(Drop)]
pub struct Instance {
    pub name: Name,
    pub binds: Option<Binds>,
}

/// A function's result (A.2.6).
#[derive(Drop)]
pub enum FunctionType {
    /// Nothing is said: one bit.
    Bit,
    Range(Range),
    Integer,
}

/// An input of a function's header (A.2.6).
#[derive(Drop)]
pub enum FunctionPort {
    /// `input signed [7:0] a`: the sign, the range and the name.
    Declared(Place, bool, Option<Range>, Name),
    Named(Name),
}

/// A declaration in a function (A.2.8): the sign, the range and the names.
#[derive(Drop)]
pub enum FunctionDeclaration {
    Inputs(Place, bool, Option<Range>, Items<Name>),
    Variables(Place, bool, Option<Range>, Items<Name>),
    Integers(Place, Items<Name>),
}

/// A function (A.2.6). Its ports are none where its header has no parentheses.
#[derive(Drop)]
pub struct Function {
    pub place: Place,
    pub automatic: bool,
    pub signed: bool,
    pub result: FunctionType,
    pub name: Name,
    pub ports: Items<FunctionPort>,
    pub declarations: Items<FunctionDeclaration>,
    pub body: Stmt,
}

/// What a `for` or an `if` of a module repeats or takes (A.4.2).
#[derive(Drop)]
pub enum GenerateBlock<I> {
    Single(Boxed<I>),
    /// `begin : label` .. `end`
    Several(Place, Option<Name>, Items<I>),
}

/// The place of an `if`, its condition, and its block.
#[derive(Drop)]
pub struct GenerateBranch<I> {
    pub place: Place,
    pub condition: Expr,
    pub block: GenerateBlock<I>,
}

/// An item of a module or a generate block (A.1.4, A.4.2).
#[derive(Drop)]
pub enum Item {
    /// `parameter`, or `localparam` where true; then the sign, the range and the names.
    Parameter(Place, bool, bool, Option<Range>, Items<Valued>),
    /// `input` and `output`
    Directed(Directed, Items<Name>),
    /// `wire`
    Nets(Place, bool, Option<Range>, Items<Net>),
    /// `reg`
    Registers(Place, bool, Option<Range>, Items<Variable>),
    /// `integer`
    Integer(Place, Items<Variable>),
    /// `genvar`
    Genvar(Place, Items<Name>),
    /// `assign`
    Continuous(Place, Items<Driven>),
    /// `always`
    Always(Place, Event, Stmt),
    /// `initial`
    Initial(Place, Stmt),
    /// `function`
    Function(Function),
    /// A module's name, the values of its parameters if there is a `#(..)`, and the instances.
    Instances(Name, Option<Option<Binds>>, Items<Instance>),
    /// `generate` .. `endgenerate`
    Region(Place, Items<Item>),
    /// `for`
    GenerateLoop(Place, Loop, GenerateBlock<Item>),
    /// `if` .. `else if` .. `else`: one branch at least.
    GenerateIf(Items<GenerateBranch<Item>>, Option<GenerateBlock<Item>>),
}

/// A module (A.1.2): its name, the parameters of its `#(..)`, none where it has none, the ports of its `(..)` if it has
/// one, its items.
#[derive(Drop)]
pub struct Module {
    pub place: Place,
    pub name: Name,
    pub parameters: Items<HeaderParameter>,
    pub ports: Option<Items<Port>>,
    pub items: Items<Item>,
}

/// A source: its modules in order (A.1.2).
#[derive(Drop)]
pub struct Source {
    pub modules: Items<Module>,
}
