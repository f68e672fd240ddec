//! Expressions: a primary, an operator before one, or an operator between two; and a condition, an expression in parentheses.

ghost use Rattle.std.specs.Prelude.{◌+◌, ◌<◌, ◌≤◌, IfOk, IfSome, length};
ghost use Rattle.vl_tree.specs.Token.{all_coded};
ghost use Rattle.vl_tree.specs.View as view;
ghost use Rattle.vl_tree.specs.Grammar.{unary_mark, binary_mark, primary_at, expr_at, condition_at};
ghost use Rattle.vl_module.specs.Reading.{Any, Reads, FindsTree};
ghost use Rattle.vl_module.specs.Rules.{IsOperator, operator_at, Ends};

use crate::SynFault;
use crate::tokens::{expect_mark, first_mark, next};
use dt_core::text::Text;
use std::alloc::Global;
use vl_tree::expr::{Binary, Expr, Primary, Unary};
use vl_tree::token::{Mark, Token, TokenKind};

// The operator before an operand that a mark is.
fn unary_of(mark: Mark) -> Option<Unary>
    ensures { IsOperator unary_mark mark result }
{
    match mark {
        Mark::Not => Some(Unary::LogicNot),
        _ => None,
    }
}

// The operator between operands that a mark is.
fn binary_of(mark: Mark) -> Option<Binary>
    ensures { IsOperator binary_mark mark result }
{
    match mark {
        Mark::Plus => Some(Binary::Add),
        Mark::EqualEqual => Some(Binary::Equal),
        _ => None,
    }
}

// The operator before an operand that comes first, and the tokens after it.
fn first_unary(tokens: &[Token], depth: u32) -> Option<(Unary, &[Token])>
    ensures reads { FindsTree (λ op. op) (operator_at unary_mark depth) (all_coded tokens.now) result }
    ensures shorter { IfSome result (λ x. length x.1.now < length tokens.now) }
    ensures shallow { IfSome result (λ x. depth ≤ 200) }
{
    let (mark, rest) = first_mark(tokens, depth)?;
    let operator = unary_of(mark)?;
    Some((operator, rest))
}

// The operator between operands that comes first, and the tokens after it.
fn first_binary(tokens: &[Token], depth: u32) -> Option<(Binary, &[Token])>
    ensures reads { FindsTree (λ op. op) (operator_at binary_mark depth) (all_coded tokens.now) result }
    ensures shorter { IfSome result (λ x. length x.1.now < length tokens.now) }
{
    let (mark, rest) = first_mark(tokens, depth)?;
    let operator = binary_of(mark)?;
    Some((operator, rest))
}

/// A name or a number.
pub fn read_primary(
    alloc: Global,
    tokens: &[Token],
    depth: u32,
) -> Result<(Primary, &[Token]), SynFault>
    ensures reads { Reads view.primary (primary_at depth) Any (all_coded tokens.now) result }
    ensures shorter { IfOk result (λ x. length x.1.now < length tokens.now) }
{
    let Some((first, rest)) = next(tokens, depth) else {
        return Err(SynFault::NoTree);
    };
    match &first.kind {
        TokenKind::Name(name) => {
            let copy = Text::copied(alloc, name.bytes())?;
            Ok((Primary::Name(copy), rest))
        }
        TokenKind::Number(literal) => Ok((Primary::Number(*literal), rest)),
        _ => Err(SynFault::NoTree),
    }
}

/// An expression, after which no operator comes.
pub fn read_expr(alloc: Global, tokens: &[Token], depth: u32) -> Result<(Expr, &[Token]), SynFault>
    ensures reads { Reads view.expr (expr_at depth) Ends (all_coded tokens.now) result }
    ensures shorter { IfOk result (λ x. length x.1.now < length tokens.now) }
{
    if let Some((operator, inner)) = first_unary(tokens, depth) {
        let (operand, rest) = read_primary(alloc, inner, depth + 1)?;
        return Ok((Expr::Unary(operator, operand), rest));
    }
    let (left, after) = read_primary(alloc, tokens, depth)?;
    if let Some((operator, inner)) = first_binary(after, depth) {
        let (right, rest) = read_primary(alloc, inner, depth)?;
        return Ok((Expr::Binary(left, operator, right), rest));
    }
    Ok((Expr::Primary(left), after))
}

/// An expression in parentheses.
pub fn read_condition(
    alloc: Global,
    tokens: &[Token],
    depth: u32,
) -> Result<(Expr, &[Token]), SynFault>
    ensures reads { Reads view.expr (condition_at depth) Any (all_coded tokens.now) result }
    ensures shorter { IfOk result (λ x. length x.1.now < length tokens.now) }
    ensures shallow { IfOk result (λ x. depth ≤ 200) }
{
    let rest = expect_mark(tokens, depth, Mark::OpenParen)?;
    let (condition, rest) = read_expr(alloc, rest, depth + 1)?;
    let rest = expect_mark(rest, depth, Mark::CloseParen)?;
    Ok((condition, rest))
}
