//! Readers of statements, one for each rule that holds statements.

ghost use Rattle.std.specs.Prelude.{◌+◌, ◌≡◌, ◌≤◌, ◌<◌, IfOk, length};
ghost use Rattle.vl_tree.specs.Token as k;
ghost use Rattle.vl_tree.specs.declared.token.Key.TheVariants as w;
ghost use Rattle.vl_tree.specs.SyntaxView as view;
ghost use Rattle.vl_tree.specs.Statements.{case_word};
ghost use Rattle.vl_statement.specs.Readers.{ReadsStatement};
ghost use Rattle.vl_simple.specs.Simple.{ReadsAfter};
ghost use Rattle.vl_statement.specs.Parts.{ReadsBranch, ReadsArm};

use crate::header::read_loop;
use dt_core::limits::MAX_DEPTH;
use dt_core::place::Place;
use sqlite_items::{Boxed, Items};
use std::alloc::Global;
use vl_expr::read_list;
use vl_read::cursor::Cursor;
use vl_read::fault::Fault;
use vl_read::lists::list_of;
use vl_simple::{
    Start, pass_colon, read_assign, read_fatal, read_file_print, read_grouped, read_label,
    read_print, read_stop, start_of,
};
use vl_tree::statement::{Arm, Branch, Stmt};
use vl_tree::token::{Key, Mark};

/// A statement (IEEE 1364-2005, A.6.4), at this depth.
#[cycle(statement)]
pub fn read_statement<'a>(
    alloc: Global,
    at: Cursor<'a>,
    depth: u32,
) -> Result<(Stmt, Cursor<'a>), Fault>
    requires low { depth ≤ MAX_DEPTH + 1 }
    ensures reads { ReadsStatement depth at.entry result }
    ensures shorter { IfOk result (λ x. length x.1 < length at.entry) }
    ensures shallow { IfOk result (λ x. depth ≤ MAX_DEPTH) }
{
    let Some((token, place, rest)) = at.next() else {
        return Err(Fault::At(at.left()));
    };
    let Some(start) = start_of(token) else {
        return Err(Fault::At(at.left()));
    };
    if depth > MAX_DEPTH {
        return Err(Fault::Deep(at.left()));
    }
    match start {
        Start::Empty => Ok((Stmt::Empty(place), rest)),
        Start::Block => read_block(alloc, rest, depth, place),
        Start::Conditional => read_conditional(alloc, rest, depth, place),
        Start::Select(wild) => read_select(alloc, rest, depth, place, wild),
        Start::Loop => read_for(alloc, rest, depth, place),
        Start::Assign => read_assign(alloc, at, depth),
        Start::Print(print) => read_print(alloc, rest, depth, place, print),
        Start::FilePrint => read_file_print(alloc, rest, depth, place),
        Start::Stop => read_stop(alloc, rest, depth, place),
        Start::Fatal => read_fatal(rest, depth, place),
    }
}

// A block, from after `begin` on (A.6.3).
#[cycle(statement)]
fn read_block<'a>(
    alloc: Global,
    at: Cursor<'a>,
    depth: u32,
    place: Place,
) -> Result<(Stmt, Cursor<'a>), Fault>
    requires low { depth ≤ MAX_DEPTH }
    ensures reads { ReadsAfter (k.key w.Begin) (view.place place) depth at.entry result }
    ensures shorter { IfOk result (λ x. length x.1 < length at.entry) }
{
    let (label, after) = read_label(alloc, at, depth)?;
    let mut body = Items::new(alloc);
    let mut rest = after;
    loop {
        match rest.find_key(Key::End) {
            Some((_, after)) => return Ok((Stmt::Block(place, label, body), after)),
            None => {
                let (statement, after) = read_statement(alloc, rest, depth + 1)?;
                body.push(statement)?;
                rest = after;
            }
        }
    }
}

// Branches and a last `else`, from after the first `if` on (A.6.6).
#[cycle(statement)]
fn read_conditional<'a>(
    alloc: Global,
    at: Cursor<'a>,
    depth: u32,
    place: Place,
) -> Result<(Stmt, Cursor<'a>), Fault>
    requires low { depth ≤ MAX_DEPTH }
    ensures reads { ReadsAfter (k.key w.If) (view.place place) depth at.entry result }
    ensures shorter { IfOk result (λ x. length x.1 < length at.entry) }
{
    let (first, after) = read_branch(alloc, at, depth, place)?;
    let mut branches = list_of(alloc, first)?;
    let mut rest = after;
    loop {
        let Some((_, after)) = rest.find_key(Key::Else) else {
            return Ok((Stmt::Conditional(branches, None), rest));
        };
        match after.find_key(Key::If) {
            Some((place, inner)) => {
                let (branch, after) = read_branch(alloc, inner, depth, place)?;
                branches.push(branch)?;
                rest = after;
            }
            None => {
                let (other, after) = read_statement(alloc, after, depth + 1)?;
                let other = Boxed::new(alloc, other)?;
                return Ok((Stmt::Conditional(branches, Some(other)), after));
            }
        }
    }
}

// A condition and its statement, from after an `if` with this place on.
#[cycle(statement)]
fn read_branch<'a>(
    alloc: Global,
    at: Cursor<'a>,
    depth: u32,
    place: Place,
) -> Result<(Branch<Stmt>, Cursor<'a>), Fault>
    requires low { depth ≤ MAX_DEPTH }
    ensures reads { ReadsBranch (view.place place) depth at.entry result }
    ensures shorter { IfOk result (λ x. length x.1 < length at.entry) }
{
    let (condition, rest) = read_grouped(alloc, at, depth)?;
    let (body, rest) = read_statement(alloc, rest, depth + 1)?;
    let branch = Branch {
        place,
        condition,
        body,
    };
    Ok((branch, rest))
}

// A selector and its arms, from after `case`, or `casez` where true, on (A.6.7).
#[cycle(statement)]
fn read_select<'a>(
    alloc: Global,
    at: Cursor<'a>,
    depth: u32,
    place: Place,
    wild: bool,
) -> Result<(Stmt, Cursor<'a>), Fault>
    requires low { depth ≤ MAX_DEPTH }
    ensures reads { ReadsAfter (k.key (case_word wild)) (view.place place) depth at.entry result }
    ensures shorter { IfOk result (λ x. length x.1 < length at.entry) }
{
    let (selector, after) = read_grouped(alloc, at, depth)?;
    let (first, after) = read_arm(alloc, after, depth + 1)?;
    let mut arms = list_of(alloc, first)?;
    let mut rest = after;
    loop {
        match rest.find_key(Key::Endcase) {
            Some((_, after)) => return Ok((Stmt::Select(place, wild, selector, arms), after)),
            None => {
                let (arm, after) = read_arm(alloc, rest, depth + 1)?;
                arms.push(arm)?;
                rest = after;
            }
        }
    }
}

// An arm: labels or `default`, and its statement, which is deeper by one.
#[cycle(statement)]
fn read_arm<'a>(alloc: Global, at: Cursor<'a>, depth: u32) -> Result<(Arm<Stmt>, Cursor<'a>), Fault>
    requires low { depth ≤ MAX_DEPTH + 1 }
    ensures reads { ReadsArm depth at.entry result }
    ensures shorter { IfOk result (λ x. length x.1 < length at.entry) }
{
    match at.find_key(Key::Default) {
        Some((place, rest)) => {
            if depth > MAX_DEPTH {
                return Err(Fault::Deep(at.left()));
            }
            let (colon, rest) = pass_colon(rest);
            let (body, rest) = read_statement(alloc, rest, depth + 1)?;
            Ok((Arm::Default(place, colon, body), rest))
        }
        None => {
            let (labels, rest) = read_list(alloc, at, depth)?;
            let rest = rest.pass_mark(Mark::Colon)?;
            let (body, rest) = read_statement(alloc, rest, depth + 1)?;
            Ok((Arm::Labels(labels, body), rest))
        }
    }
}

// A loop, from after `for` on (A.6.8).
#[cycle(statement)]
fn read_for<'a>(
    alloc: Global,
    at: Cursor<'a>,
    depth: u32,
    place: Place,
) -> Result<(Stmt, Cursor<'a>), Fault>
    requires low { depth ≤ MAX_DEPTH }
    ensures reads { ReadsAfter (k.key w.For) (view.place place) depth at.entry result }
    ensures shorter { IfOk result (λ x. length x.1 < length at.entry) }
{
    let (header, rest) = read_loop(alloc, at, depth)?;
    let (body, rest) = read_statement(alloc, rest, depth + 1)?;
    let body = Boxed::new(alloc, body)?;
    Ok((Stmt::Loop(place, header, body), rest))
}
