//! The table of operators: how each takes its operands.

ghost use Rattle.std.specs.Prelude.{◌≡◌};
ghost use Rattle.vl_value.specs.Meaning as meaning;
ghost use Rattle.vl_width.specs.Rows.{taken};

use bit_ops::{Binary, Unary};

/// How an operator takes its two operands (IEEE 1364-2005, table 5-22).
#[derive(Clone, Copy, Debug, PartialEq, Eq)]
pub enum Operands {
    /// Both at the context's size.
    Alike,
    /// Both at the larger of their sizes, for one bit.
    Compared,
    /// The left one at the context's size, the right one by itself.
    Shifted,
    /// Each by itself, for one bit.
    Judged,
}

/// How an operator takes its two operands.
pub fn operands_of(operator: Binary) -> Operands
    ensures { taken result ≡ meaning.operands_of operator }
{
    match operator {
        Binary::Mul | Binary::Div | Binary::Rem | Binary::Add | Binary::Sub => Operands::Alike,
        Binary::And | Binary::Xor | Binary::Xnor | Binary::Or => Operands::Alike,
        Binary::Lt | Binary::Le | Binary::Gt | Binary::Ge => Operands::Compared,
        Binary::Eq | Binary::Ne => Operands::Compared,
        Binary::Shl | Binary::Shr | Binary::Sar => Operands::Shifted,
        Binary::LogicAnd | Binary::LogicOr => Operands::Judged,
    }
}

/// Whether an operator takes its one operand at the context's size; else by itself, for one bit.
pub fn keeps_context(operator: Unary) -> bool
    ensures { result ≡ meaning.keeps_context operator }
{
    match operator {
        Unary::Plus | Unary::Minus | Unary::Not => true,
        Unary::LogicNot => false,
        Unary::And | Unary::Nand | Unary::Or | Unary::Nor | Unary::Xor | Unary::Xnor => false,
    }
}
