//! The operators on one and on two operands.

/// An operator on one operand: `+ - ~ !`, and the reductions `& ~& | ~| ^ ~^`.
#[derive(Clone, Copy, Debug, PartialEq, Eq)]
pub enum Unary {
    Plus,
    Minus,
    Not,
    LogicNot,
    And,
    Nand,
    Or,
    Nor,
    Xor,
    Xnor,
}

/// An operator on two operands: `* / % + - << >> >>> < <= > >= == != & ^ ~^ | && ||`.
///
/// `<<<` is `<<`, and as values have two states `===` is `==` and `!==` is `!=`.
#[derive(Clone, Copy, Debug, PartialEq, Eq)]
pub enum Binary {
    Mul,
    Div,
    Rem,
    Add,
    Sub,
    Shl,
    Shr,
    Sar,
    Lt,
    Le,
    Gt,
    Ge,
    Eq,
    Ne,
    And,
    Xor,
    Xnor,
    Or,
    LogicAnd,
    LogicOr,
}
