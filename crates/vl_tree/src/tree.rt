//! Syntax trees of a module with one clocked block.

use crate::expr::Expr;
use crate::token::Literal;
use dt_core::text::Text;
use sqlite_items::{Boxed, Items};

/// A condition of an `if` or an `else if`, and the statement where it is the first that holds.
#[derive(Debug, Drop)]
pub struct Branch<S> {
    pub condition: Expr,
    pub body: S,
}

/// A statement.
#[derive(Debug, Drop)]
pub enum Stmt {
    /// `begin` .. `end`
    Block(Items<Stmt>),
    /// `if` .. `else if` .. `else`: one branch at least. A chain is a list, so its length is no depth.
    Conditional(Items<Branch<Stmt>>, Option<Boxed<Stmt>>),
    /// The target and the value of a nonblocking assignment.
    Assign(Text, Expr),
    /// The format of `$display`, and the name that it shows.
    Display(Text, Option<Text>),
    /// `$stop`, with the line where it stands, from 1.
    Stop(u32),
}

/// A port of the module's header: `input name`, or `output reg [left:right] name`.
#[derive(Debug, Drop)]
pub enum Port {
    Input(Text),
    Output(Text, Literal, Literal),
}

/// A module: its name, its ports in order, the clock of its one block, and the statements of that block.
#[derive(Debug, Drop)]
pub struct Module {
    pub name: Text,
    pub ports: Vec<Port>,
    pub clock: Text,
    pub body: Items<Stmt>,
}
