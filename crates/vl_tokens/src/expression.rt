//! Tokens of expressions and ranges.

ghost use Rattle.std.specs.Prelude.{◌≡◌, true};
ghost use Rattle.vl_tree.specs.SyntaxView as view;
ghost use Rattle.vl_width.specs.Lists.{exprs_of, links_of, choices_of};
ghost use Rattle.vl_tokens.specs.Counted.{capped, expr_tokens, listed, links_tokens, choices_tokens, selects_tokens, range_tokens};

use crate::count::{one_where, plus};
use vl_tree::expression::{Choice, Expr, Link, Range, Select, Selected};

/// Tokens of an expression.
#[cycle(expr)]
pub fn expr(e: &Expr) -> u32
    ensures { result ≡ capped (expr_tokens (view.expr e.now)) }
{
    match e {
        Expr::Number(_, _) => 1,
        Expr::Read(_, all) => plus(1, selects(all.as_slice())),
        Expr::Call(_, all) => plus(3, in_commas(false, all.as_slice())),
        Expr::System(_, _, operand) => plus(3, expr(operand.get())),
        Expr::Group(_, inner) => plus(2, expr(inner.get())),
        Expr::Concat(_, all) => plus(2, in_commas(false, all.as_slice())),
        Expr::Repeat(_, count, all) => {
            let inner = in_commas(false, all.as_slice());
            plus(4, plus(expr(count.get()), inner))
        }
        Expr::Unary(_, _, operand) => plus(1, expr(operand.get())),
        Expr::Chain(first, all) => plus(expr(first.get()), links(all.as_slice())),
        Expr::Choose(all, last) => plus(choices(all.as_slice()), expr(last.get())),
    }
}

/// Tokens of expressions with commas between them, with one before the first where that is said.
#[cycle(expr)]
pub fn in_commas(first: bool, all: &[Expr]) -> u32
    ensures { result ≡ capped (listed first (exprs_of all.now)) }
{
    let mut comma = first;
    let mut count = 0;
    for e in all {
        let one = plus(one_where(comma), expr(e));
        count = plus(count, one);
        comma = true;
    }
    count
}

#[cycle(expr)]
fn links(all: &[Link<Expr>]) -> u32
    ensures { result ≡ capped (links_tokens (links_of all.now)) }
{
    let mut count = 0;
    for link in all {
        let one = plus(1, expr(&link.operand));
        count = plus(count, one);
    }
    count
}

#[cycle(expr)]
fn choices(all: &[Choice<Expr>]) -> u32
    ensures { result ≡ capped (choices_tokens (choices_of all.now)) }
{
    let mut count = 0;
    for choice in all {
        let value = plus(2, expr(&choice.value));
        let one = plus(expr(&choice.condition), value);
        count = plus(count, one);
    }
    count
}

/// Tokens of selects.
#[cycle(expr)]
pub fn selects(all: &[Selected<Expr>]) -> u32
    ensures { result ≡ capped (selects_tokens (view.read_selects all.now)) }
{
    let mut count = 0;
    for selected in all {
        let inner = match &selected.select {
            Select::Index(e) => expr(e),
            Select::Part(a, b) => plus(expr(a), plus(1, expr(b))),
            Select::Upward(a, b) => plus(expr(a), plus(1, expr(b))),
            Select::Downward(a, b) => plus(expr(a), plus(1, expr(b))),
        };
        let one = plus(2, inner);
        count = plus(count, one);
    }
    count
}

/// Tokens of a range.
pub fn range(declared: &Range) -> u32
    ensures { result ≡ capped (range_tokens (view.range declared.now)) }
{
    let right = plus(3, expr(&declared.right));
    plus(expr(&declared.left), right)
}
