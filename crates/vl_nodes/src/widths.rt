//! Widths that operators give.

ghost use Rattle.std.specs.Prelude.{◌≡◌};
ghost use Rattle.bit_ops.specs.Applied as applied;

use bit_ops::{Binary, Unary};

/// The width that the operator gives, of the width of its operand.
pub(crate) fn unary_width(operator: Unary, width: u32) -> u32
    ensures { result ≡ applied.unary_width operator width }
{
    match operator {
        Unary::Plus | Unary::Minus | Unary::Not => width,
        Unary::LogicNot
        | Unary::And
        | Unary::Nand
        | Unary::Or
        | Unary::Nor
        | Unary::Xor
        | Unary::Xnor => 1,
    }
}

/// The width that the operator gives, of the width of its left operand.
pub(crate) fn binary_width(operator: Binary, width: u32) -> u32
    ensures { result ≡ applied.binary_width operator width }
{
    match operator {
        Binary::Lt
        | Binary::Le
        | Binary::Gt
        | Binary::Ge
        | Binary::Eq
        | Binary::Ne
        | Binary::LogicAnd
        | Binary::LogicOr => 1,
        Binary::Mul
        | Binary::Div
        | Binary::Rem
        | Binary::Add
        | Binary::Sub
        | Binary::Shl
        | Binary::Shr
        | Binary::Sar
        | Binary::And
        | Binary::Xor
        | Binary::Xnor
        | Binary::Or => width,
    }
}
