//! Statements that hold no other: assignments and system tasks.

ghost use Rattle.std.specs.Prelude.{◌+◌, ◌≤◌, ◌<◌, IfOk, IfSome, length};
ghost use Rattle.vl_tree.specs.Token as k;
ghost use Rattle.vl_tree.specs.declared.token.Mark.TheVariants as m;
ghost use Rattle.vl_tree.specs.declared.token.System.TheVariants as s;
ghost use Rattle.vl_tree.specs.SyntaxView as view;
ghost use Rattle.vl_tree.specs.Statements.{print_name};
ghost use Rattle.vl_simple.specs.Simple.{ReadsAssign, ReadsAfter, ReadsValues, ReadsFormat, ReadsPrinted, ReadsStopped};
ghost use Rattle.vl_simple.specs.Simple.{FindsAssignment, ReadsEmptyList};

use crate::target::read_target;
use dt_core::limits::MAX_DEPTH;
use dt_core::place::Place;
use dt_core::text::Text;
use sqlite_items::Items;
use std::alloc::Global;
use vl_expr::read_expr;
use vl_read::cursor::Cursor;
use vl_read::fault::Fault;
use vl_tree::expression::Expr;
use vl_tree::statement::{Assignment, Print, Printed, Stmt, Stopped};
use vl_tree::token::{Mark, TokenKind};

/// A format where it stands, and the values after it.
#[derive(Drop)]
pub struct Format {
    pub place: Place,
    pub text: Text,
    pub values: Items<Expr>,
}

// The assignment whose mark comes first, the mark's place, and the tokens after it.
fn find_assignment<'a>(at: &Cursor<'a>) -> Option<(Assignment, Place, Cursor<'a>)>
    ensures reads { FindsAssignment at.now result }
    ensures shorter { IfSome result (λ x. length x.2 < length at.now) }
{
    let (token, place, after) = at.next()?;
    match token.kind {
        TokenKind::Mark(Mark::Equals) => Some((Assignment::Blocking, place, after)),
        TokenKind::Mark(Mark::LessEqual) => Some((Assignment::Nonblocking, place, after)),
        _ => None,
    }
}

/// A target, `=` or `<=`, a value and `;`, at this depth.
pub fn read_assign<'a>(
    alloc: Global,
    at: Cursor<'a>,
    depth: u32,
) -> Result<(Stmt, Cursor<'a>), Fault>
    requires low { depth ≤ MAX_DEPTH }
    ensures reads { ReadsAssign depth at.entry result }
    ensures shorter { IfOk result (λ x. length x.1 < length at.entry) }
{
    let (target, rest) = read_target(alloc, at, depth)?;
    let Some((assignment, place, inner)) = find_assignment(&rest) else {
        return Err(Fault::At(rest.left()));
    };
    let (value, rest) = read_expr(alloc, inner, depth)?;
    let rest = rest.pass_mark(Mark::Semicolon)?;
    Ok((Stmt::Assign(target, assignment, place, value), rest))
}

// Expressions with a comma before each.
fn read_values<'a>(
    alloc: Global,
    at: Cursor<'a>,
    depth: u32,
) -> Result<(Items<Expr>, Cursor<'a>), Fault>
    requires low { depth ≤ MAX_DEPTH }
    ensures reads { ReadsValues depth at.entry result }
    ensures shorter { IfOk result (λ x. length x.1 ≤ length at.entry) }
{
    let mut all = Items::new(alloc);
    let mut rest = at;
    loop {
        match rest.find_mark(Mark::Comma) {
            None => return Ok((all, rest)),
            Some((_, inner)) => {
                let (expr, after) = read_expr(alloc, inner, depth)?;
                all.push(expr)?;
                rest = after;
            }
        }
    }
}

// A format and its values.
fn read_format<'a>(alloc: Global, at: Cursor<'a>, depth: u32) -> Result<(Format, Cursor<'a>), Fault>
    requires low { depth ≤ MAX_DEPTH + 1 }
    ensures reads { ReadsFormat depth at.entry result }
    ensures shorter { IfOk result (λ x. length x.1 < length at.entry) }
{
    let Some((token, place, rest)) = at.next() else {
        return Err(Fault::At(at.left()));
    };
    match &token.kind {
        TokenKind::Str(text) => {
            if depth > MAX_DEPTH {
                return Err(Fault::Deep(at.left()));
            }
            let text = Text::copied(alloc, text.bytes())?;
            let (values, rest) = read_values(alloc, rest, depth)?;
            Ok((
                Format {
                    place,
                    text,
                    values,
                },
                rest,
            ))
        }
        _ => Err(Fault::At(at.left())),
    }
}

// What stands between `$display` and `;`.
fn read_printed<'a>(
    alloc: Global,
    at: Cursor<'a>,
    depth: u32,
) -> Result<(Printed, Cursor<'a>), Fault>
    requires low { depth ≤ MAX_DEPTH }
    ensures reads { ReadsPrinted depth at.entry result }
    ensures shorter { IfOk result (λ x. length x.1 ≤ length at.entry) }
{
    let Some((_, inner)) = at.find_mark(Mark::OpenParen) else {
        return Ok((Printed::Bare, at));
    };
    match inner.find_mark(Mark::CloseParen) {
        Some((_, rest)) => Ok((Printed::EmptyList, rest)),
        None => {
            let (format, rest) = read_format(alloc, inner, depth + 1)?;
            let rest = rest.pass_mark(Mark::CloseParen)?;
            let printed = Printed::Format(format.place, format.text, format.values);
            Ok((printed, rest))
        }
    }
}

// What stands between `$stop` and `;`.
fn read_stopped<'a>(
    alloc: Global,
    at: Cursor<'a>,
    depth: u32,
) -> Result<(Stopped, Cursor<'a>), Fault>
    requires low { depth ≤ MAX_DEPTH }
    ensures reads { ReadsStopped depth at.entry result }
    ensures shorter { IfOk result (λ x. length x.1 ≤ length at.entry) }
{
    let Some((_, inner)) = at.find_mark(Mark::OpenParen) else {
        return Ok((Stopped::NoArgument, at));
    };
    match inner.find_mark(Mark::CloseParen) {
        Some((_, rest)) => Ok((Stopped::EmptyArgument, rest)),
        None => {
            let (argument, rest) = read_expr(alloc, inner, depth + 1)?;
            let rest = rest.pass_mark(Mark::CloseParen)?;
            Ok((Stopped::Argument(argument), rest))
        }
    }
}

// Whether `()` comes next, and the tokens after it.
fn read_empty_list<'a>(at: Cursor<'a>) -> Result<(bool, Cursor<'a>), Fault>
    ensures reads { ReadsEmptyList at.entry result }
    ensures shorter { IfOk result (λ x. length x.1 ≤ length at.entry) }
{
    match at.find_mark(Mark::OpenParen) {
        None => Ok((false, at)),
        Some((_, inner)) => {
            let rest = inner.pass_mark(Mark::CloseParen)?;
            Ok((true, rest))
        }
    }
}

/// `$display` or `$write`, from after it on.
pub fn read_print<'a>(
    alloc: Global,
    at: Cursor<'a>,
    depth: u32,
    place: Place,
    print: Print,
) -> Result<(Stmt, Cursor<'a>), Fault>
    requires low { depth ≤ MAX_DEPTH }
    ensures reads { ReadsAfter (k.system (print_name (view.print print))) (view.place place) depth at.entry result }
    ensures shorter { IfOk result (λ x. length x.1 < length at.entry) }
{
    let (printed, rest) = read_printed(alloc, at, depth)?;
    let rest = rest.pass_mark(Mark::Semicolon)?;
    Ok((Stmt::Print(place, print, printed), rest))
}

/// `$fwrite`, from after it on.
pub fn read_file_print<'a>(
    alloc: Global,
    at: Cursor<'a>,
    depth: u32,
    place: Place,
) -> Result<(Stmt, Cursor<'a>), Fault>
    requires low { depth ≤ MAX_DEPTH }
    ensures reads { ReadsAfter (k.system s.Fwrite) (view.place place) depth at.entry result }
    ensures shorter { IfOk result (λ x. length x.1 < length at.entry) }
{
    let rest = at.pass_mark(Mark::OpenParen)?;
    let (file, rest) = read_expr(alloc, rest, depth + 1)?;
    let rest = rest.pass_mark(Mark::Comma)?;
    let (format, rest) = read_format(alloc, rest, depth + 1)?;
    let rest = rest.pass_mark(Mark::CloseParen)?;
    let rest = rest.pass_mark(Mark::Semicolon)?;
    let statement = Stmt::FilePrint(place, file, format.place, format.text, format.values);
    Ok((statement, rest))
}

/// `$stop`, from after it on.
pub fn read_stop<'a>(
    alloc: Global,
    at: Cursor<'a>,
    depth: u32,
    place: Place,
) -> Result<(Stmt, Cursor<'a>), Fault>
    requires low { depth ≤ MAX_DEPTH }
    ensures reads { ReadsAfter (k.system s.Stop) (view.place place) depth at.entry result }
    ensures shorter { IfOk result (λ x. length x.1 < length at.entry) }
{
    let (stopped, rest) = read_stopped(alloc, at, depth)?;
    let rest = rest.pass_mark(Mark::Semicolon)?;
    Ok((Stmt::Stop(place, stopped), rest))
}

/// `$fatal`, from after it on.
pub fn read_fatal<'a>(at: Cursor<'a>, depth: u32, place: Place) -> Result<(Stmt, Cursor<'a>), Fault>
    requires low { depth ≤ MAX_DEPTH }
    ensures reads { ReadsAfter (k.system s.Fatal) (view.place place) depth at.entry result }
    ensures shorter { IfOk result (λ x. length x.1 < length at.entry) }
{
    let (list, rest) = read_empty_list(at)?;
    let rest = rest.pass_mark(Mark::Semicolon)?;
    Ok((Stmt::Fatal(place, list), rest))
}
