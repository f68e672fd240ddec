//! Operators, and what an expression begins with.

ghost use Rattle.std.specs.Prelude.{◌≡◌, ◌∷◌, ◌<◌, ◌≤◌, Some, IfSome, MatchOption, false, length};
ghost use Rattle.vl_tree.specs.Token.{coded_kind};
ghost use Rattle.vl_tree.specs.Token as k;
ghost use Rattle.vl_tree.specs.Expressions as grammar;
ghost use Rattle.vl_expr.specs.Starts.{BeginsWith};
ghost use Rattle.vl_expr.specs.Ends as ends;
ghost use Rattle.vl_expr.specs.Ends.{level_at, FindsOperator, FindsLevel, FindsSeparator, IsOperator};

use bit_ops::{Binary, Unary};
use dt_core::place::Place;
use dt_core::text::Text;
use vl_read::cursor::Cursor;
use vl_tree::expression::SystemFunction;
use vl_tree::token::{Literal, Mark, System, Token, TokenKind};

/// What an expression begins with.
#[derive(Clone, Copy)]
pub enum Start<'a> {
    Number(Literal),
    Name(&'a Text),
    System(SystemFunction),
    /// `(`
    Paren,
    /// `{`
    Brace,
    Unary(Unary),
}

/// What stands between the two expressions of a part select.
#[derive(Clone, Copy, Debug, PartialEq, Eq)]
pub enum Separator {
    /// `:`
    Part,
    /// `+:`
    Upward,
    /// `-:`
    Downward,
}

// The operator that a mark is before an operand.
fn unary_of(mark: Mark) -> Option<Unary>
    ensures { result ≡ grammar.unary_of mark }
{
    match mark {
        Mark::Plus => Some(Unary::Plus),
        Mark::Minus => Some(Unary::Minus),
        Mark::Not => Some(Unary::LogicNot),
        Mark::Tilde => Some(Unary::Not),
        Mark::And => Some(Unary::And),
        Mark::Nand => Some(Unary::Nand),
        Mark::Or => Some(Unary::Or),
        Mark::Nor => Some(Unary::Nor),
        Mark::Xor => Some(Unary::Xor),
        Mark::Xnor => Some(Unary::Xnor),
        _ => None,
    }
}

// The operator that a mark is between operands.
fn binary_of(mark: Mark) -> Option<Binary>
    ensures { result ≡ grammar.binary_of mark }
{
    match mark {
        Mark::Star => Some(Binary::Mul),
        Mark::Slash => Some(Binary::Div),
        Mark::Percent => Some(Binary::Rem),
        Mark::Plus => Some(Binary::Add),
        Mark::Minus => Some(Binary::Sub),
        Mark::ShiftLeft | Mark::ArithmeticLeft => Some(Binary::Shl),
        Mark::ShiftRight => Some(Binary::Shr),
        Mark::ArithmeticRight => Some(Binary::Sar),
        Mark::Less => Some(Binary::Lt),
        Mark::LessEqual => Some(Binary::Le),
        Mark::Greater => Some(Binary::Gt),
        Mark::GreaterEqual => Some(Binary::Ge),
        Mark::EqualEqual | Mark::CaseEqual => Some(Binary::Eq),
        Mark::NotEqual | Mark::CaseNotEqual => Some(Binary::Ne),
        Mark::And => Some(Binary::And),
        Mark::Xor => Some(Binary::Xor),
        Mark::Xnor => Some(Binary::Xnor),
        Mark::Or => Some(Binary::Or),
        Mark::AndAnd => Some(Binary::LogicAnd),
        Mark::OrOr => Some(Binary::LogicOr),
        _ => None,
    }
}

// The level of an operator between operands: 1 binds most tightly.
fn level(operator: Binary) -> u32
    ensures { result ≡ grammar.binary_level operator }
{
    match operator {
        Binary::Mul | Binary::Div | Binary::Rem => 1,
        Binary::Add | Binary::Sub => 2,
        Binary::Shl | Binary::Shr | Binary::Sar => 3,
        Binary::Lt | Binary::Le | Binary::Gt | Binary::Ge => 4,
        Binary::Eq | Binary::Ne => 5,
        Binary::And => 6,
        Binary::Xor | Binary::Xnor => 7,
        Binary::Or => 8,
        Binary::LogicAnd => 9,
        Binary::LogicOr => 10,
    }
}

// What a mark begins.
fn mark_start<'a>(mark: Mark) -> Option<Start<'a>>
    ensures { BeginsWith (k.mark mark) result }
{
    match mark {
        Mark::OpenParen => Some(Start::Paren),
        Mark::OpenBrace => Some(Start::Brace),
        _ => {
            let operator = unary_of(mark)?;
            Some(Start::Unary(operator))
        }
    }
}

// What a system name begins.
fn system_start<'a>(system: System) -> Option<Start<'a>>
    ensures { BeginsWith (k.system system) result }
{
    match system {
        System::Signed => Some(Start::System(SystemFunction::ToSigned)),
        System::Unsigned => Some(Start::System(SystemFunction::ToUnsigned)),
        System::Clog2 => Some(Start::System(SystemFunction::Clog2)),
        _ => None,
    }
}

/// What a token begins, if an expression begins with it.
pub fn start_of(token: &Token) -> Option<Start<'_>>
    ensures { BeginsWith (coded_kind token.now.kind) result }
{
    match &token.kind {
        TokenKind::Number(literal) => Some(Start::Number(*literal)),
        TokenKind::Name(name) => Some(Start::Name(name)),
        TokenKind::System(system) => system_start(*system),
        TokenKind::Mark(mark) => mark_start(*mark),
        _ => None,
    }
}

// The operator of this level that a mark is.
fn operator_of_level(mark: Mark, wanted: u32) -> Option<Binary>
    requires { (1 ≤ wanted) × (wanted ≤ 10) }
    ensures { IsOperator wanted mark result }
{
    match binary_of(mark) {
        Some(operator) => {
            if level(operator) == wanted {
                Some(operator)
            } else {
                None
            }
        }
        None => None,
    }
}

/// The operator of this level, from 1 to 10, that comes first, its place, and the tokens after it.
pub fn find_operator<'a>(at: &Cursor<'a>, wanted: u32) -> Option<(Binary, Place, Cursor<'a>)>
    requires { (1 ≤ wanted) × (wanted ≤ 10) }
    ensures reads { FindsOperator wanted at.now result }
    ensures shorter { IfSome result (λ x. length x.2 < length at.now) }
{
    let (token, place, after) = at.next()?;
    match token.kind {
        TokenKind::Mark(mark) => {
            match operator_of_level(mark, wanted) {
                Some(operator) => Some((operator, place, after)),
                None => None,
            }
        }
        _ => None,
    }
}

// The level at which a mark goes on with an expression: 0 for a select or arguments, that of its operator, 11 for a choice, 12 where it
// doesn't.
fn mark_level(mark: Mark) -> u32
    ensures { result ≡ ends.mark_level mark }
{
    match mark {
        Mark::OpenBracket | Mark::OpenParen => 0,
        Mark::Star | Mark::Slash | Mark::Percent => 1,
        Mark::Plus | Mark::Minus => 2,
        Mark::ShiftLeft | Mark::ArithmeticLeft | Mark::ShiftRight | Mark::ArithmeticRight => 3,
        Mark::Less | Mark::LessEqual | Mark::Greater | Mark::GreaterEqual => 4,
        Mark::EqualEqual | Mark::NotEqual | Mark::CaseEqual | Mark::CaseNotEqual => 5,
        Mark::And => 6,
        Mark::Xor | Mark::Xnor => 7,
        Mark::Or => 8,
        Mark::AndAnd => 9,
        Mark::OrOr => 10,
        Mark::Question => 11,
        _ => 12,
    }
}

// The level at which the first token goes on with an expression, 12 where it doesn't.
fn next_level(at: &Cursor<'_>) -> u32
    ensures { result ≡ level_at at.now }
{
    let Some((token, _, _)) = at.next() else {
        return 12;
    };
    match token.kind {
        TokenKind::Mark(mark) => mark_level(mark),
        _ => 12,
    }
}

/// The level of the operator that comes first, if it is `lower` at least and below `limit`.
pub fn find_level(at: &Cursor<'_>, lower: u32, limit: u32) -> Option<u32>
    requires { (1 ≤ lower) × (limit ≤ 11) }
    ensures { FindsLevel lower limit at.now result }
{
    let level = next_level(at);
    if level < lower {
        return None;
    }
    if level < limit { Some(level) } else { None }
}

/// The separator that comes first, and the tokens after it.
pub fn find_separator<'a>(at: &Cursor<'a>) -> Option<(Separator, Cursor<'a>)>
    ensures reads { FindsSeparator at.now result }
    ensures shorter { IfSome result (λ x. length x.1 < length at.now) }
{
    let (token, _, after) = at.next()?;
    match token.kind {
        TokenKind::Mark(Mark::Colon) => Some((Separator::Part, after)),
        TokenKind::Mark(Mark::PlusColon) => Some((Separator::Upward, after)),
        TokenKind::Mark(Mark::MinusColon) => Some((Separator::Downward, after)),
        _ => None,
    }
}
