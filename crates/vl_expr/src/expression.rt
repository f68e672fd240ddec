//! Readers of expressions, one for each rule.

ghost use Rattle.std.specs.Prelude.{◌≡◌, ◌∷◌, [], ◌+◌, ◌≤◌, ◌<◌, IsTrue, suc, length, IfOk};
ghost use Rattle.vl_tree.specs.Token as k;
ghost use Rattle.vl_tree.specs.declared.token.Mark.TheVariants as m;
ghost use Rattle.vl_tree.specs.SyntaxView as view;
ghost use Rattle.vl_tree.specs.Expressions as g;
ghost use Rattle.vl_tree.specs.Depth.{expr_depths, exprs_depths, select_depths};
ghost use Rattle.vl_read.specs.Reading.{Reads, Any};
ghost use Rattle.vl_read.specs.Tokens.{Not};
ghost use Rattle.vl_expr.specs.Ends.{Ends, EndsExpr, EndsList, EndsSelect};
ghost use Rattle.vl_expr.specs.Readers.{ReadsLinks, ReadsNamed, ReadsMore, ReadsSelects};
ghost use Rattle.vl_expr.specs.Readers.{ReadsAfter, ReadsSystem, ReadsUnary};
ghost use Rattle.vl_expr.specs.Lists as list;

use crate::operators::{Separator, Start, find_level, find_operator, find_separator, start_of};
use crate::parts::{chosen, linked};
use bit_ops::Unary;
use dt_core::limits::MAX_DEPTH;
use dt_core::place::Place;
use dt_core::text::Text;
use sqlite_items::{Boxed, Items};
use std::alloc::Global;
use vl_read::cursor::Cursor;
use vl_read::fault::Fault;
use vl_read::lists::{list_of, room_for};
use vl_tree::expression::{Choice, Expr, Link, Name, Select, Selected, SystemFunction};
use vl_tree::token::Mark;

/// An expression, at this depth.
#[cycle(expression)]
pub fn read_expr<'a>(alloc: Global, at: Cursor<'a>, depth: u32) -> Result<(Expr, Cursor<'a>), Fault>
    requires low { depth ≤ MAX_DEPTH + 1 }
    ensures reads { Reads view.expr g.expr_at (expr_depths depth) EndsExpr EndsExpr at.entry result }
    ensures shorter { IfOk result (λ x. length x.1 < length at.entry) }
    ensures shallow { IfOk result (λ x. depth ≤ MAX_DEPTH) }
{
    let mut choices = Items::new(alloc);
    let mut rest = at;
    loop {
        let (condition, after) = read_chain(alloc, rest, 11, depth)?;
        match after.find_mark(Mark::Question) {
            None => {
                let expr = chosen(alloc, choices, condition)?;
                return Ok((expr, after));
            }
            Some((place, inner)) => {
                let (value, after) = read_expr(alloc, inner, depth + 1)?;
                let after = after.pass_mark(Mark::Colon)?;
                choices.push(Choice {
                    condition,
                    place,
                    value,
                })?;
                rest = after;
            }
        }
    }
}

// An expression whose level is below this limit: a primary, and then operators of each level in turn that comes next.
#[cycle(expression)]
fn read_chain<'a>(
    alloc: Global,
    at: Cursor<'a>,
    limit: u32,
    depth: u32,
) -> Result<(Expr, Cursor<'a>), Fault>
    requires some { 1 ≤ limit }
    requires most { limit ≤ 11 }
    requires low { depth ≤ MAX_DEPTH + 1 }
    ensures reads { Reads view.expr (g.below limit) (expr_depths depth) (Ends limit) (Ends limit) at.entry result }
    ensures shorter { IfOk result (λ x. length x.1 < length at.entry) }
    ensures shallow { IfOk result (λ x. depth ≤ MAX_DEPTH) }
{
    let (first, after) = read_primary(alloc, at, depth)?;
    let mut expr = first;
    let mut rest = after;
    let mut lower = 1;
    loop {
        match find_level(&rest, lower, limit) {
            None => return Ok((expr, rest)),
            Some(level) => {
                let (chain, after) = read_links(alloc, rest, level, depth, expr)?;
                expr = chain;
                rest = after;
                lower = level + 1;
            }
        }
    }
}

// The operators of this level that come first, with their right operands, and before them this expression.
#[cycle(expression)]
fn read_links<'a>(
    alloc: Global,
    at: Cursor<'a>,
    level: u32,
    depth: u32,
    first: Expr,
) -> Result<(Expr, Cursor<'a>), Fault>
    requires some { 1 ≤ level }
    requires most { level ≤ 10 }
    requires low { depth ≤ MAX_DEPTH }
    ensures reads { ReadsLinks level depth (view.expr first) at.entry result }
    ensures shorter { IfOk result (λ x. length x.1 ≤ length at.entry) }
{
    let mut links = room_for(alloc, 1)?;
    let mut rest = at;
    loop {
        match find_operator(&rest, level) {
            None => {
                let expr = linked(alloc, first, links)?;
                return Ok((expr, rest));
            }
            Some((operator, place, inner)) => {
                let (operand, after) = read_chain(alloc, inner, level, depth)?;
                links.push(Link {
                    operator,
                    place,
                    operand,
                })?;
                rest = after;
            }
        }
    }
}

// A number, a name with selects or arguments, a function of the language, an expression in parentheses or braces, or an
// operator with its operand.
#[cycle(expression)]
fn read_primary<'a>(alloc: Global, at: Cursor<'a>, depth: u32) -> Result<(Expr, Cursor<'a>), Fault>
    requires low { depth ≤ MAX_DEPTH + 1 }
    ensures reads { Reads view.expr (g.below 1) (expr_depths depth) (Ends 1) (Ends 1) at.entry result }
    ensures shorter { IfOk result (λ x. length x.1 < length at.entry) }
    ensures shallow { IfOk result (λ x. depth ≤ MAX_DEPTH) }
{
    let Some((token, place, rest)) = at.next() else {
        return Err(Fault::At(at.left()));
    };
    let Some(start) = start_of(token) else {
        return Err(Fault::At(at.left()));
    };
    if depth > MAX_DEPTH {
        return Err(Fault::Deep(at.left()));
    }
    match start {
        Start::Number(literal) => Ok((Expr::Number(place, literal), rest)),
        Start::Name(text) => read_named(alloc, rest, depth, text, place),
        Start::System(function) => read_system(alloc, rest, depth, place, function),
        Start::Paren => read_group(alloc, rest, depth, place),
        Start::Brace => read_braces(alloc, rest, depth, place),
        Start::Unary(operator) => read_unary(alloc, rest, depth, place, operator),
    }
}

// What comes after the name of a function of the language: its operand in parentheses. Each function clears the room of
// all its trees when it is entered, so the rare kinds of primary stand in functions of their own.
#[cycle(expression)]
#[inline(never)]
fn read_system<'a>(
    alloc: Global,
    at: Cursor<'a>,
    depth: u32,
    place: Place,
    function: SystemFunction,
) -> Result<(Expr, Cursor<'a>), Fault>
    requires low { depth ≤ MAX_DEPTH }
    ensures reads { ReadsSystem (view.system_function function) (view.place place) depth at.entry result }
    ensures shorter { IfOk result (λ x. length x.1 < length at.entry) }
{
    let rest = at.pass_mark(Mark::OpenParen)?;
    let (operand, rest) = read_expr(alloc, rest, depth + 1)?;
    let rest = rest.pass_mark(Mark::CloseParen)?;
    let operand = Boxed::new(alloc, operand)?;
    Ok((Expr::System(place, function, operand), rest))
}

// What comes after `(`: an expression and `)`.
#[cycle(expression)]
#[inline(never)]
fn read_group<'a>(
    alloc: Global,
    at: Cursor<'a>,
    depth: u32,
    place: Place,
) -> Result<(Expr, Cursor<'a>), Fault>
    requires low { depth ≤ MAX_DEPTH }
    ensures reads { ReadsAfter (k.mark m.OpenParen) (view.place place) depth at.entry result }
    ensures shorter { IfOk result (λ x. length x.1 < length at.entry) }
{
    let (inner, rest) = read_expr(alloc, at, depth + 1)?;
    let rest = rest.pass_mark(Mark::CloseParen)?;
    let inner = Boxed::new(alloc, inner)?;
    Ok((Expr::Group(place, inner), rest))
}

// What comes after an operator before its operand.
#[cycle(expression)]
#[inline(never)]
fn read_unary<'a>(
    alloc: Global,
    at: Cursor<'a>,
    depth: u32,
    place: Place,
    operator: Unary,
) -> Result<(Expr, Cursor<'a>), Fault>
    requires low { depth ≤ MAX_DEPTH }
    ensures reads { ReadsUnary operator (view.place place) depth at.entry result }
    ensures shorter { IfOk result (λ x. length x.1 < length at.entry) }
{
    let (operand, rest) = read_primary(alloc, at, depth + 1)?;
    let operand = Boxed::new(alloc, operand)?;
    Ok((Expr::Unary(place, operator, operand), rest))
}

// What comes after a name: arguments in parentheses, or selects.
#[cycle(expression)]
#[inline(never)]
fn read_named<'a>(
    alloc: Global,
    at: Cursor<'a>,
    depth: u32,
    text: &Text,
    place: Place,
) -> Result<(Expr, Cursor<'a>), Fault>
    requires low { depth ≤ MAX_DEPTH }
    ensures reads { ReadsNamed text.now (view.place place) depth at.entry result }
    ensures shorter { IfOk result (λ x. length x.1 ≤ length at.entry) }
{
    let text = Text::copied(alloc, text.bytes())?;
    let name = Name { text, place };
    match at.find_mark(Mark::OpenParen) {
        Some((_, inner)) => {
            let (arguments, rest) = read_list(alloc, inner, depth + 1)?;
            let rest = rest.pass_mark(Mark::CloseParen)?;
            Ok((Expr::Call(name, arguments), rest))
        }
        None => {
            let (selects, rest) = read_selects(alloc, at, depth)?;
            Ok((Expr::Read(name, selects), rest))
        }
    }
}

// What comes after `{`: expressions to `}`, or a count, and expressions in braces of their own.
#[cycle(expression)]
fn read_braces<'a>(
    alloc: Global,
    at: Cursor<'a>,
    depth: u32,
    place: Place,
) -> Result<(Expr, Cursor<'a>), Fault>
    requires low { depth ≤ MAX_DEPTH }
    ensures reads { Reads view.expr (list.braces_at (view.place place)) (list.braces_depths depth) Any Any at.entry result }
    ensures shorter { IfOk result (λ x. length x.1 < length at.entry) }
{
    let (first, rest) = read_expr(alloc, at, depth + 1)?;
    match rest.find_mark(Mark::OpenBrace) {
        Some((_, inner)) => {
            let (parts, rest) = read_list(alloc, inner, depth + 1 + 1)?;
            let rest = rest.pass_mark(Mark::CloseBrace)?;
            let rest = rest.pass_mark(Mark::CloseBrace)?;
            let count = Boxed::new(alloc, first)?;
            Ok((Expr::Repeat(place, count, parts), rest))
        }
        None => {
            let (parts, rest) = read_more(alloc, rest, depth + 1, first)?;
            let rest = rest.pass_mark(Mark::CloseBrace)?;
            Ok((Expr::Concat(place, parts), rest))
        }
    }
}

/// Expressions with commas between them, one at least.
#[cycle(expression)]
pub fn read_list<'a>(
    alloc: Global,
    at: Cursor<'a>,
    depth: u32,
) -> Result<(Items<Expr>, Cursor<'a>), Fault>
    requires low { depth ≤ MAX_DEPTH + 1 }
    ensures reads { Reads list.exprs_of g.exprs_at (exprs_depths depth) EndsList EndsList at.entry result }
    ensures shorter { IfOk result (λ x. length x.1 < length at.entry) }
    ensures shallow { IfOk result (λ x. depth ≤ MAX_DEPTH) }
{
    let (first, rest) = read_expr(alloc, at, depth)?;
    read_more(alloc, rest, depth, first)
}

/// The list that begins with this expression: those after it have a comma before each.
#[cycle(expression)]
pub fn read_more<'a>(
    alloc: Global,
    at: Cursor<'a>,
    depth: u32,
    first: Expr,
) -> Result<(Items<Expr>, Cursor<'a>), Fault>
    requires low { depth ≤ MAX_DEPTH }
    ensures reads { ReadsMore (view.expr first) depth at.entry result }
    ensures shorter { IfOk result (λ x. length x.1 ≤ length at.entry) }
{
    let mut all = list_of(alloc, first)?;
    let mut rest = at;
    loop {
        match rest.find_mark(Mark::Comma) {
            None => return Ok((all, rest)),
            Some((_, inner)) => {
                let (expr, after) = read_expr(alloc, inner, depth)?;
                all.push(expr)?;
                rest = after;
            }
        }
    }
}

/// Selects, one after another.
#[cycle(expression)]
pub fn read_selects<'a>(
    alloc: Global,
    at: Cursor<'a>,
    depth: u32,
) -> Result<(Items<Selected<Expr>>, Cursor<'a>), Fault>
    requires low { depth ≤ MAX_DEPTH }
    ensures reads { ReadsSelects depth at.entry result }
    ensures shorter { IfOk result (λ x. length x.1 ≤ length at.entry) }
{
    let Some(_) = at.find_mark(Mark::OpenBracket) else {
        return Ok((Items::new(alloc), at));
    };
    let mut selects = room_for(alloc, 1)?;
    let mut rest = at;
    loop {
        match rest.find_mark(Mark::OpenBracket) {
            None => return Ok((selects, rest)),
            Some((place, inner)) => {
                let (select, after) = read_select(alloc, inner, depth + 1)?;
                let after = after.pass_mark(Mark::CloseBracket)?;
                selects.push(Selected { place, select })?;
                rest = after;
            }
        }
    }
}

// What stands between `[` and `]`.
#[cycle(expression)]
fn read_select<'a>(
    alloc: Global,
    at: Cursor<'a>,
    depth: u32,
) -> Result<(Select<Expr>, Cursor<'a>), Fault>
    requires low { depth ≤ MAX_DEPTH + 1 }
    ensures reads { Reads view.read_select g.select_at (select_depths depth) EndsSelect EndsSelect at.entry result }
    ensures shorter { IfOk result (λ x. length x.1 < length at.entry) }
{
    let (first, rest) = read_expr(alloc, at, depth)?;
    let Some((separator, inner)) = find_separator(&rest) else {
        return Ok((Select::Index(first), rest));
    };
    let (second, rest) = read_expr(alloc, inner, depth)?;
    match separator {
        Separator::Part => Ok((Select::Part(first, second), rest)),
        Separator::Upward => Ok((Select::Upward(first, second), rest)),
        Separator::Downward => Ok((Select::Downward(first, second), rest)),
    }
}
