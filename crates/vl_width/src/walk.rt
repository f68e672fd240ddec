//! Constant expressions gone through, operand by operand.

ghost use Rattle.std.specs.Prelude.{◌≡◌, IfOk, map};
ghost use Rattle.std.specs.Option.{option_map};
ghost use Rattle.vl_tree.specs.Syntax as t;
ghost use Rattle.vl_tree.specs.SyntaxView as view;
ghost use Rattle.vl_value.specs.Meaning.{unary_of};
ghost use Rattle.vl_width.specs.Terms.{branch, meant, Gives};
ghost use Rattle.vl_width.specs.Known as known;
ghost use Rattle.vl_width.specs.Lists.{exprs_of, links_of, choices_of};

use crate::known::{Branch, Known, braces, choose, copies};
use crate::names::{Names, Object};
use crate::number::Constant;
use bit_ops::Unary;
use dt_core::bits::Bits;
use sqlite_items::Items;
use std::alloc::{AllocError, Global};
use vl_tree::expression::{Choice, Expr, Link, Name, Selected, SystemFunction};
use vl_tree::token::Literal;

/// What an expression is worth, where it is constant and has no fault; else none.
#[cycle(fold)]
pub fn fold<N: Names>(alloc: Global, names: &N, e: &Expr) -> Result<Option<Known>, AllocError>
    ensures { Gives result (known.known (N.sight names.now) (view.expr e.now)) }
{
    match e {
        Expr::Number(_, literal) => Ok(Some(Known::number(number_of(*literal)))),
        Expr::Read(name, selects) => Ok(read(names, name, selects.as_slice())),
        Expr::Call(_, _) => Ok(None),
        Expr::System(_, function, operand) => fold_system(alloc, names, *function, operand.get()),
        Expr::Group(_, inner) => fold(alloc, names, inner.get()),
        Expr::Concat(_, parts) => fold_parts(alloc, names, parts.as_slice()),
        Expr::Repeat(_, count, parts) => {
            let count = fold(alloc, names, count.get())?;
            let part = fold_parts(alloc, names, parts.as_slice())?;
            Ok(copied(count, part))
        }
        Expr::Unary(_, operator, operand) => fold_unary(alloc, names, *operator, operand.get()),
        Expr::Chain(first, links) => {
            let first = fold(alloc, names, first.get())?;
            fold_links(alloc, names, first, links.as_slice())
        }
        Expr::Choose(choices, last) => {
            let branches = fold_choices(alloc, names, choices.as_slice())?;
            let last = fold(alloc, names, last.get())?;
            Ok(chosen(branches, last))
        }
    }
}

// A function of the language: `$clog2` alone is constant.
#[cycle(fold)]
fn fold_system<N: Names>(
    alloc: Global,
    names: &N,
    function: SystemFunction,
    operand: &Expr,
) -> Result<Option<Known>, AllocError>
    ensures { let o = known.known (N.sight names.now) (view.expr operand.now) in
        Gives result (known.system_known (view.system_function function) o) }
{
    match function {
        SystemFunction::ToSigned | SystemFunction::ToUnsigned => Ok(None),
        SystemFunction::Clog2 => match fold(alloc, names, operand)? {
            Some(operand) => Ok(Some(operand.logarithm())),
            None => Ok(None),
        },
    }
}

// An operator before an operand.
#[cycle(fold)]
fn fold_unary<N: Names>(
    alloc: Global,
    names: &N,
    operator: Unary,
    operand: &Expr,
) -> Result<Option<Known>, AllocError>
    ensures { Gives result (option_map (unary_of operator) (known.known (N.sight names.now) (view.expr operand.now))) }
{
    match fold(alloc, names, operand)? {
        Some(operand) => Ok(Some(operand.unary(alloc, operator)?)),
        None => Ok(None),
    }
}

// `{a, b}`
#[cycle(fold)]
fn fold_parts<N: Names>(
    alloc: Global,
    names: &N,
    parts: &[Expr],
) -> Result<Option<Known>, AllocError>
    ensures { Gives result (known.braced (known.all_known (N.sight names.now) (exprs_of parts.now))) }
{
    match fold_all(alloc, names, parts)? {
        Some(parts) => Ok(braces(parts.as_slice())),
        None => Ok(None),
    }
}

// Each of some expressions; none where one is none.
#[cycle(fold)]
fn fold_all<N: Names>(
    alloc: Global,
    names: &N,
    parts: &[Expr],
) -> Result<Option<Items<Known>>, AllocError>
    ensures { let all = known.all_known (N.sight names.now) (exprs_of parts.now) in
        IfOk result (λ ks. option_map (map meant) ks ≡ all) }
{
    let mut all = Items::new(alloc);
    for part in parts {
        match fold(alloc, names, part)? {
            Some(part) => all.push(part)?,
            None => return Ok(None),
        }
    }
    Ok(Some(all))
}

// Operators of one level after a first operand.
#[cycle(fold)]
fn fold_links<N: Names>(
    alloc: Global,
    names: &N,
    first: Option<Known>,
    links: &[Link<Expr>],
) -> Result<Option<Known>, AllocError>
    ensures { Gives result (known.linked (N.sight names.now) (links_of links.now) (option_map meant first)) }
{
    let Some(first) = first else {
        return Ok(None);
    };
    let mut left = first;
    for link in links {
        match fold(alloc, names, &link.operand)? {
            Some(right) => left = left.binary(alloc, link.operator, right)?,
            None => return Ok(None),
        }
    }
    Ok(Some(left))
}

// Each of some choices; none where a part of one is none.
#[cycle(fold)]
fn fold_choices<N: Names>(
    alloc: Global,
    names: &N,
    choices: &[Choice<Expr>],
) -> Result<Option<Items<Branch>>, AllocError>
    ensures { let all = known.all_choices (N.sight names.now) (choices_of choices.now) in
        IfOk result (λ bs. option_map (map branch) bs ≡ all) }
{
    let mut all = Items::new(alloc);
    for choice in choices {
        let Some(condition) = fold(alloc, names, &choice.condition)? else {
            return Ok(None);
        };
        let Some(value) = fold(alloc, names, &choice.value)? else {
            return Ok(None);
        };
        all.push(Branch { condition, value })?;
    }
    Ok(Some(all))
}

// `{n{a, b}}`, where both are known.
fn copied(count: Option<Known>, part: Option<Known>) -> Option<Known>
    ensures { option_map meant result ≡ known.copied (option_map meant count) (option_map meant part) }
{
    let count = count?;
    let part = part?;
    copies(&count, &part)
}

// `c ? a : b`, where all are known.
fn chosen(branches: Option<Items<Branch>>, last: Option<Known>) -> Option<Known>
    ensures { option_map meant result ≡ known.chosen (option_map (map branch) branches) (option_map meant last) }
{
    let branches = branches?;
    let last = last?;
    Some(choose(branches, last))
}

// A name: a constant without a select.
fn read<N: Names>(names: &N, name: &Name, selects: &[Selected<Expr>]) -> Option<Known>
    ensures { let thing = N.sight names.now name.now.text in
        option_map meant result ≡ known.read_known thing (view.read_selects selects.now) }
{
    if !selects.is_empty() {
        return None;
    }
    match names.find(&name.text) {
        Some(Object::Constant(number)) => Some(Known::number(number)),
        _ => None,
    }
}

// The number that a literal is.
fn number_of(literal: Literal) -> Constant
    ensures bits { (result.bits.width ≡ literal.width) × (result.bits.value ≡ literal.value) }
    ensures signed { result.signed ≡ literal.signed }
{
    Constant {
        bits: Bits::of(literal.width, literal.value),
        signed: literal.signed,
    }
}
