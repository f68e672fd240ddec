//! Expressions: primaries, and operators before and between them.

use crate::token::Literal;
use dt_core::text::Text;

/// What an operator stands beside (IEEE 1364-2005, A.8.4, cut down): a name or a number.
#[derive(Debug, Drop)]
pub enum Primary {
    Name(Text),
    Number(Literal),
}

/// An operator before its operand (IEEE 1364-2005, A.8.6, cut down).
#[derive(Clone, Copy, Debug, PartialEq, Eq)]
pub enum Unary {
    /// `!` (5.1.9)
    LogicNot,
}

/// An operator between its operands (IEEE 1364-2005, A.8.6, cut down).
#[derive(Clone, Copy, Debug, PartialEq, Eq)]
pub enum Binary {
    /// `+` (5.1.5)
    Add,
    /// `==` (5.1.8)
    Equal,
}

/// An expression (IEEE 1364-2005, A.8.3, cut down): it has one operator at most.
#[derive(Debug, Drop)]
pub enum Expr {
    Primary(Primary),
    /// The operator, and its operand.
    Unary(Unary, Primary),
    /// The left operand, the operator, and the right operand.
    Binary(Primary, Binary, Primary),
}
