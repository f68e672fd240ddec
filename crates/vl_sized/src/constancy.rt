//! Whether expressions are constant.

ghost use Rattle.std.specs.Prelude.{◌≡◌};
ghost use Rattle.vl_tree.specs.SyntaxView as view;
ghost use Rattle.vl_value.specs.Constant as constant;
ghost use Rattle.vl_width.specs.Lists.{exprs_of, links_of, choices_of};

use dt_core::text::Text;
use vl_tree::expression::{Choice, Expr, Link, Select, Selected, SystemFunction};
use vl_width::names::{Names, Object};

/// Whether an expression reads nothing but numbers and constants, and calls nothing but `$clog2`.
#[cycle(constancy)]
pub fn is_constant<N: Names>(names: &N, e: &Expr) -> bool
    ensures { result ≡ constant.is_constant (N.sight names.now) (view.expr e.now) }
{
    match e {
        Expr::Number(_, _) => true,
        Expr::Read(name, selects) => {
            stands_for_constant(names, &name.text) && are_selects(names, selects.as_slice())
        }
        Expr::Call(_, _) => false,
        Expr::System(_, function, operand) => match function {
            SystemFunction::Clog2 => is_constant(names, operand.get()),
            SystemFunction::ToSigned | SystemFunction::ToUnsigned => false,
        },
        Expr::Group(_, inner) => is_constant(names, inner.get()),
        Expr::Concat(_, parts) => are_constant(names, parts.as_slice()),
        Expr::Repeat(_, count, parts) => {
            is_constant(names, count.get()) && are_constant(names, parts.as_slice())
        }
        Expr::Unary(_, _, operand) => is_constant(names, operand.get()),
        Expr::Chain(first, links) => {
            is_constant(names, first.get()) && are_links(names, links.as_slice())
        }
        Expr::Choose(choices, last) => {
            are_choices(names, choices.as_slice()) && is_constant(names, last.get())
        }
    }
}

#[cycle(constancy)]
fn are_constant<N: Names>(names: &N, parts: &[Expr]) -> bool
    ensures { result ≡ constant.all_constant (N.sight names.now) (exprs_of parts.now) }
{
    for part in parts {
        if !is_constant(names, part) {
            return false;
        }
    }
    true
}

#[cycle(constancy)]
fn are_links<N: Names>(names: &N, links: &[Link<Expr>]) -> bool
    ensures { result ≡ constant.links_constant (N.sight names.now) (links_of links.now) }
{
    for link in links {
        if !is_constant(names, &link.operand) {
            return false;
        }
    }
    true
}

#[cycle(constancy)]
fn are_choices<N: Names>(names: &N, choices: &[Choice<Expr>]) -> bool
    ensures { result ≡ constant.choices_constant (N.sight names.now) (choices_of choices.now) }
{
    for choice in choices {
        if !is_constant(names, &choice.condition) {
            return false;
        }
        if !is_constant(names, &choice.value) {
            return false;
        }
    }
    true
}

#[cycle(constancy)]
fn are_selects<N: Names>(names: &N, selects: &[Selected<Expr>]) -> bool
    ensures { result ≡ constant.selects_constant (N.sight names.now) (view.read_selects selects.now) }
{
    for selected in selects {
        match &selected.select {
            Select::Index(index) => {
                if !is_constant(names, index) {
                    return false;
                }
            }
            Select::Part(first, second)
            | Select::Upward(first, second)
            | Select::Downward(first, second) => {
                if !is_constant(names, first) {
                    return false;
                }
                if !is_constant(names, second) {
                    return false;
                }
            }
        }
    }
    true
}

// Whether a name stands for a parameter, a genvar or a loop variable in its loop.
fn stands_for_constant<N: Names>(names: &N, name: &Text) -> bool
    ensures { result ≡ constant.is_constant_name (N.sight names.now name.now) }
{
    match names.find(name) {
        Some(Object::Constant(_)) => true,
        _ => false,
    }
}
