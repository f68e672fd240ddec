//! Expressions gone through, operand by operand: what each is at its own size, or the least of its faults.

ghost use Rattle.std.specs.Prelude.{◌≡◌, IfOk, map};
ghost use Rattle.vl_tree.specs.SyntaxView as view;
ghost use Rattle.vl_width.specs.Lists.{exprs_of, links_of, choices_of};
ghost use Rattle.vl_sized.specs.Sensed as sensed;
ghost use Rattle.vl_sized.specs.Plain.{sense_of, case_of, plain_picks, judged, Gives};

use crate::build;
use crate::combine::{braces, call, chosen, copied, joined, operated, paired, system, unary};
use crate::node::{Case, Node, SizedExpr};
use crate::picks::{Indexed, Judged, Pick, Picked, Picks, index_of, needed, settled_whole};
use crate::select::read;
use dt_core::bits::Bits;
use sqlite_items::Items;
use std::alloc::{AllocError, Global};
use vl_found::{Found, lesser};
use vl_tree::expression::{Choice, Expr, Link, Select, Selected};
use vl_tree::token::Literal;
use vl_width::names::Names;
use vl_width::number::Constant;

/// What an expression is at its own size, or the least of its faults.
#[cycle(size)]
pub fn size<N: Names>(alloc: Global, names: &N, e: &Expr) -> Result<Judged, AllocError>
    ensures { Gives (sense_of (N.numbering names.now)) result (sensed.sensed (N.sight names.now) (view.expr e.now)) }
{
    match e {
        Expr::Number(_, literal) => Ok(Ok(build::number(number_of(*literal)))),
        Expr::Read(name, selects) => {
            let picks = size_selects(alloc, names, selects.as_slice())?;
            Ok(read(names.find(&name.text), name.place, picks))
        }
        Expr::Call(name, arguments) => {
            let inputs = size_all(alloc, names, arguments.as_slice())?;
            call(alloc, names, name, arguments.len(), inputs)
        }
        Expr::System(_, function, operand) => {
            system(alloc, *function, size(alloc, names, operand.get())?)
        }
        Expr::Group(_, inner) => size(alloc, names, inner.get()),
        Expr::Concat(place, parts) => {
            Ok(braces(*place, size_all(alloc, names, parts.as_slice())?))
        }
        Expr::Repeat(place, count, parts) => {
            let count = count.get();
            let sized = size(alloc, names, count)?;
            let inner = size_all(alloc, names, parts.as_slice())?;
            let number = settled_whole(alloc, names, count)?;
            let fault = needed(names, count, sized);
            Ok(copied(*place, fault, number, inner))
        }
        Expr::Unary(_, operator, operand) => {
            unary(alloc, *operator, size(alloc, names, operand.get())?)
        }
        Expr::Chain(first, links) => {
            let first = size(alloc, names, first.get())?;
            size_links(alloc, names, first, links.as_slice())
        }
        Expr::Choose(choices, last) => {
            let cases = size_choices(alloc, names, choices.as_slice())?;
            let last = size(alloc, names, last.get())?;
            chosen(alloc, cases, last)
        }
    }
}

// Each of some expressions, or the least fault.
#[cycle(size)]
fn size_all<N: Names>(
    alloc: Global,
    names: &N,
    parts: &[Expr],
) -> Result<Result<Items<SizedExpr>, Found>, AllocError>
    ensures { let all = sensed.all_sensed (N.sight names.now) (exprs_of parts.now) in
        Gives (map (sense_of (N.numbering names.now))) result all }
{
    let mut all = Ok(Items::new(alloc));
    for part in parts {
        let next = size(alloc, names, part)?;
        all = joined(all, next)?;
    }
    Ok(all)
}

// Operators of one level after a first operand.
#[cycle(size)]
fn size_links<N: Names>(
    alloc: Global,
    names: &N,
    first: Judged,
    links: &[Link<Expr>],
) -> Result<Judged, AllocError>
    ensures { let k = sense_of (N.numbering names.now) in
        Gives k result (sensed.linked (N.sight names.now) (links_of links.now) (judged k first)) }
{
    let mut left = first;
    for link in links {
        let right = size(alloc, names, &link.operand)?;
        left = operated(alloc, link.operator, left, right)?;
    }
    Ok(left)
}

// Each of some choices, or the least fault.
#[cycle(size)]
fn size_choices<N: Names>(
    alloc: Global,
    names: &N,
    choices: &[Choice<Expr>],
) -> Result<Result<Items<Case<Node>>, Found>, AllocError>
    ensures { let all = sensed.all_choices (N.sight names.now) (choices_of choices.now) in
        Gives (map (case_of (N.numbering names.now))) result all }
{
    let mut all = Ok(Items::new(alloc));
    for choice in choices {
        let condition = size(alloc, names, &choice.condition)?;
        let value = size(alloc, names, &choice.value)?;
        all = joined(all, paired(condition, value))?;
    }
    Ok(all)
}

// Selects, from left to right.
#[cycle(size)]
fn size_selects<N: Names>(
    alloc: Global,
    names: &N,
    selects: &[Selected<Expr>],
) -> Result<Picks, AllocError>
    ensures { let all = sensed.all_picked (N.sight names.now) (view.read_selects selects.now) in
        IfOk result (λ k. plain_picks (N.numbering names.now) k ≡ all) }
{
    let mut picks = Picks::none(alloc);
    for selected in selects {
        let picked = match &selected.select {
            Select::Index(index) => {
                let sized = size(alloc, names, index)?;
                let Indexed { fault, index } = index_of(alloc, names, index, sized)?;
                Picked {
                    fault,
                    pick: Pick::Bit(index),
                }
            }
            Select::Part(left, right) => {
                let first = needed(names, left, size(alloc, names, left)?);
                let second = needed(names, right, size(alloc, names, right)?);
                let left = settled_whole(alloc, names, left)?;
                let right = settled_whole(alloc, names, right)?;
                Picked {
                    fault: lesser(first, second),
                    pick: Pick::Span(left, right),
                }
            }
            Select::Upward(base, width) => {
                let sized = size(alloc, names, base)?;
                let Indexed { fault, index } = index_of(alloc, names, base, sized)?;
                let other = needed(names, width, size(alloc, names, width)?);
                let width = settled_whole(alloc, names, width)?;
                Picked {
                    fault: lesser(fault, other),
                    pick: Pick::Upward(index, width),
                }
            }
            Select::Downward(base, width) => {
                let sized = size(alloc, names, base)?;
                let Indexed { fault, index } = index_of(alloc, names, base, sized)?;
                let other = needed(names, width, size(alloc, names, width)?);
                let width = settled_whole(alloc, names, width)?;
                Picked {
                    fault: lesser(fault, other),
                    pick: Pick::Downward(index, width),
                }
            }
        };
        picks = picks.with(picked)?;
    }
    Ok(picks)
}

// The number that a literal is.
fn number_of(literal: Literal) -> Constant
    ensures bits { (result.bits.width ≡ literal.width) × (result.bits.value ≡ literal.value) }
    ensures signed { result.signed ≡ literal.signed }
{
    Constant {
        bits: Bits::of(literal.width, literal.value),
        signed: literal.signed,
    }
}
