//! Tokens of statements.

ghost use Rattle.std.specs.Prelude.{◌≡◌, false};
ghost use Rattle.vl_tree.specs.SyntaxView as view;
ghost use Rattle.vl_tokens.specs.Counted.{capped};
ghost use Rattle.vl_tokens.specs.Statements.{target_tokens, targets_listed, targets_of, loop_tokens, label_tokens, printed_tokens, stopped_tokens, stmt_tokens, stmts_tokens, stmts_of, branches_listed, branches_of, arms_tokens, arms_of};
ghost use Rattle.std.specs.Option.{option_map};

use crate::count::{one_where, plus};
use crate::expression::{expr, in_commas, selects};
use vl_tree::expression::Name;
use vl_tree::statement::{Arm, Branch, Loop, Printed, Stmt, Stopped, Target};

/// Tokens of what an assignment writes.
#[cycle(target)]
pub fn target(written: &Target) -> u32
    ensures { result ≡ capped (target_tokens (view.target written.now)) }
{
    match written {
        Target::Name(_, all) => plus(1, selects(all.as_slice())),
        Target::Targets(_, all) => plus(2, targets(all.as_slice())),
    }
}

#[cycle(target)]
fn targets(all: &[Target]) -> u32
    ensures { result ≡ capped (targets_listed false (targets_of all.now)) }
{
    let mut comma = false;
    let mut count = 0;
    for written in all {
        let one = plus(one_where(comma), target(written));
        count = plus(count, one);
        comma = true;
    }
    count
}

/// Tokens of a label, with its colon.
pub fn label(name: &Option<Name>) -> u32
    ensures { result ≡ capped (label_tokens (option_map view.name name.now)) }
{
    match name {
        Some(_) => 2,
        None => 0,
    }
}

/// Tokens of a loop's header in its parentheses.
pub fn header(parts: &Loop) -> u32
    ensures { result ≡ capped (loop_tokens (view.loop parts.now)) }
{
    let last = plus(8, expr(&parts.step));
    let rest = plus(expr(&parts.condition), last);
    plus(expr(&parts.first), rest)
}

fn printed(shown: &Printed) -> u32
    ensures { result ≡ capped (printed_tokens (view.printed shown.now)) }
{
    match shown {
        Printed::Bare => 0,
        Printed::EmptyList => 2,
        Printed::Format(_, _, all) => plus(3, in_commas(true, all.as_slice())),
    }
}

fn stopped(argument: &Stopped) -> u32
    ensures { result ≡ capped (stopped_tokens (view.stopped argument.now)) }
{
    match argument {
        Stopped::NoArgument => 0,
        Stopped::EmptyArgument => 2,
        Stopped::Argument(e) => plus(2, expr(e)),
    }
}

/// Tokens of a statement.
#[cycle(stmt)]
pub fn stmt(s: &Stmt) -> u32
    ensures { result ≡ capped (stmt_tokens (view.stmt s.now)) }
{
    match s {
        Stmt::Empty(_) => 1,
        Stmt::Block(_, name, all) => {
            let inner = plus(2, stmts(all.as_slice()));
            plus(label(name), inner)
        }
        Stmt::Conditional(all, last) => {
            let first = branches(all.as_slice());
            match last {
                Some(body) => plus(first, plus(1, stmt(body.get()))),
                None => first,
            }
        }
        Stmt::Select(_, _, selector, all) => {
            let inner = plus(4, arms(all.as_slice()));
            plus(expr(selector), inner)
        }
        Stmt::Loop(_, parts, body) => {
            let inner = plus(1, stmt(body.get()));
            plus(header(parts), inner)
        }
        Stmt::Assign(written, _, _, e) => {
            let value = plus(2, expr(e));
            plus(target(written), value)
        }
        Stmt::Print(_, _, shown) => plus(2, printed(shown)),
        Stmt::FilePrint(_, file, _, _, all) => {
            let values = plus(6, in_commas(true, all.as_slice()));
            plus(expr(file), values)
        }
        Stmt::Stop(_, argument) => plus(2, stopped(argument)),
        Stmt::Fatal(_, parentheses) => {
            let closed = plus(2, one_where(*parentheses));
            plus(one_where(*parentheses), closed)
        }
    }
}

#[cycle(stmt)]
fn stmts(all: &[Stmt]) -> u32
    ensures { result ≡ capped (stmts_tokens (stmts_of all.now)) }
{
    let mut count = 0;
    for s in all {
        let one = stmt(s);
        count = plus(count, one);
    }
    count
}

// Branches with the first `if`, and with an `else` before each later one.
#[cycle(stmt)]
fn branches(all: &[Branch<Stmt>]) -> u32
    ensures { result ≡ capped (branches_listed false (branches_of all.now)) }
{
    let mut later = false;
    let mut count = 0;
    for branch in all {
        let body = plus(3, stmt(&branch.body));
        let whole = plus(expr(&branch.condition), body);
        let one = plus(one_where(later), whole);
        count = plus(count, one);
        later = true;
    }
    count
}

#[cycle(stmt)]
fn arms(all: &[Arm<Stmt>]) -> u32
    ensures { result ≡ capped (arms_tokens (arms_of all.now)) }
{
    let mut count = 0;
    for arm in all {
        let one = match arm {
            Arm::Labels(labels, body) => {
                let inner = plus(1, stmt(body));
                plus(in_commas(false, labels.as_slice()), inner)
            }
            Arm::Default(_, colon, body) => {
                let inner = plus(1, stmt(body));
                plus(one_where(*colon), inner)
            }
        };
        count = plus(count, one);
    }
    count
}
