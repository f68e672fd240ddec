//! Statements, by their first token; and the block, which the clock's block is too.

ghost use Rattle.std.specs.Prelude.{◌<◌, ◌≤◌, ◌≡◌, IfOk, IfErr, length};
ghost use Rattle.vl_tree.specs.Token.{all_coded, coded_kind};
ghost use Rattle.vl_tree.specs.View as view;
ghost use Rattle.vl_tree.specs.Grammar.{stmt_at};
ghost use Rattle.vl_module.specs.declared.SynFault.TheVariants as fault;
ghost use Rattle.vl_module.specs.Reading.{Any, Reads, Expects};
ghost use Rattle.vl_module.specs.Rules.{assign_at, display_at, shown_end, stop_at, block_at, branch_at, conditional_at};
ghost use Rattle.vl_module.specs.Rules.{closing, IsStart, Begins, branch_of, conditional_of, assign_of};

use crate::SynFault;
use crate::expr::{read_condition, read_expr};
use crate::tokens::{
    behind_key, behind_mark, expect_key, expect_mark, next, read_name, read_string, read_system,
};
use dt_core::text::Text;
use sqlite_items::{Boxed, Items};
use std::alloc::Global;
use vl_tree::expr::Expr;
use vl_tree::token::{Key, Mark, System, Token, TokenKind};
use vl_tree::tree::{Branch, Stmt};

/// What a statement begins with; `Nothing` is what none begins with.
#[derive(Clone, Copy, Debug, PartialEq, Eq)]
pub enum Start {
    Block,
    Conditional,
    Assign,
    Display,
    Stop,
    Nothing,
}

// The statement that a token of this kind begins.
fn start_of(kind: &TokenKind) -> Start
    ensures { IsStart (coded_kind kind.now) result }
{
    match kind {
        TokenKind::Name(_) => Start::Assign,
        TokenKind::Key(key) => match key {
            Key::Begin => Start::Block,
            Key::If => Start::Conditional,
            _ => Start::Nothing,
        },
        TokenKind::System(system) => match system {
            System::Display => Start::Display,
            System::Stop => Start::Stop,
            _ => Start::Nothing,
        },
        _ => Start::Nothing,
    }
}

// The statement that these tokens begin with, by the first of them.
fn first_start(tokens: &[Token], depth: u32) -> Start
    ensures { Begins depth (all_coded tokens.now) result }
{
    match next(tokens, depth) {
        Some((first, _)) => start_of(&first.kind),
        None => Start::Nothing,
    }
}

/// A statement.
#[cycle(stmt)]
pub fn read_stmt(alloc: Global, tokens: &[Token], depth: u32) -> Result<(Stmt, &[Token]), SynFault>
    ensures reads { Reads view.stmt (stmt_at depth) Any (all_coded tokens.now) result }
    ensures shorter { IfOk result (λ x. length x.1.now < length tokens.now) }
{
    match first_start(tokens, depth) {
        Start::Block => {
            let (body, rest) = read_block(alloc, tokens, depth)?;
            Ok((Stmt::Block(body), rest))
        }
        Start::Conditional => {
            let ((branches, last), rest) = read_conditional(alloc, tokens, depth)?;
            Ok((Stmt::Conditional(branches, last), rest))
        }
        Start::Assign => {
            let ((name, value), rest) = read_assign(alloc, tokens, depth)?;
            Ok((Stmt::Assign(name, value), rest))
        }
        Start::Display => {
            let ((format, name), rest) = read_display(alloc, tokens, depth)?;
            Ok((Stmt::Display(format, name), rest))
        }
        Start::Stop => {
            let (line, rest) = read_stop(tokens, depth)?;
            Ok((Stmt::Stop(line), rest))
        }
        Start::Nothing => Err(SynFault::NoTree),
    }
}

/// The statements of a block, from its `begin` to its `end`.
#[cycle(stmt)]
pub fn read_block(
    alloc: Global,
    tokens: &[Token],
    depth: u32,
) -> Result<(Items<Stmt>, &[Token]), SynFault>
    ensures reads { Reads view.stmts (block_at depth) Any (all_coded tokens.now) result }
    ensures shorter { IfOk result (λ x. length x.1.now < length tokens.now) }
{
    let mut rest = expect_key(tokens, depth, Key::Begin)?;
    let mut body = Items::new(alloc);
    loop {
        match behind_key(rest, depth, Key::End) {
            Some(after) => return Ok((body, after)),
            None => {
                let (one, after) = read_stmt(alloc, rest, depth + 1)?;
                body.push(one)?;
                rest = after;
            }
        }
    }
}

// The branches of an `if` and its last `else`. The last `else` has no `if` after it, which would begin one branch more.
#[cycle(stmt)]
fn read_conditional(
    alloc: Global,
    tokens: &[Token],
    depth: u32,
) -> Result<((Items<Branch<Stmt>>, Option<Boxed<Stmt>>), &[Token]), SynFault>
    ensures reads { Reads conditional_of (conditional_at depth) Any (all_coded tokens.now) result }
    ensures shorter { IfOk result (λ x. length x.1.now < length tokens.now) }
{
    let mut rest = expect_key(tokens, depth, Key::If)?;
    let mut branches = Items::new(alloc);
    loop {
        let (branch, after) = read_branch(alloc, rest, depth)?;
        branches.push(branch)?;
        let Some(behind) = behind_key(after, depth, Key::Else) else {
            return Ok(((branches, None), after));
        };
        let Some(next_branch) = behind_key(behind, depth, Key::If) else {
            let (last, after) = read_stmt(alloc, behind, depth + 1)?;
            let last = Boxed::new(alloc, last)?;
            return Ok(((branches, Some(last)), after));
        };
        rest = next_branch;
    }
}

// A condition and the statement after it.
#[cycle(stmt)]
fn read_branch(
    alloc: Global,
    tokens: &[Token],
    depth: u32,
) -> Result<(Branch<Stmt>, &[Token]), SynFault>
    ensures reads { Reads branch_of (branch_at depth) Any (all_coded tokens.now) result }
    ensures shorter { IfOk result (λ x. length x.1.now < length tokens.now) }
    ensures shallow { IfOk result (λ x. depth ≤ 200) }
{
    let (condition, rest) = read_condition(alloc, tokens, depth)?;
    let (body, rest) = read_stmt(alloc, rest, depth + 1)?;
    Ok((Branch { condition, body }, rest))
}

// The target and the value of an assignment.
fn read_assign(
    alloc: Global,
    tokens: &[Token],
    depth: u32,
) -> Result<((Text, Expr), &[Token]), SynFault>
    ensures reads { Reads assign_of (assign_at depth) Any (all_coded tokens.now) result }
    ensures shorter { IfOk result (λ x. length x.1.now < length tokens.now) }
{
    let (name, rest) = read_name(alloc, tokens, depth)?;
    let rest = expect_mark(rest, depth, Mark::LessEqual)?;
    let (value, rest) = read_expr(alloc, rest, depth)?;
    let rest = expect_mark(rest, depth, Mark::Semicolon)?;
    Ok(((name, value), rest))
}

// The format of a `$display`, and the name that it shows.
fn read_display(
    alloc: Global,
    tokens: &[Token],
    depth: u32,
) -> Result<((Text, Option<Text>), &[Token]), SynFault>
    ensures reads { Reads (λ x. x) (display_at depth) Any (all_coded tokens.now) result }
    ensures shorter { IfOk result (λ x. length x.1.now < length tokens.now) }
{
    let (_, rest) = read_system(tokens, depth, System::Display)?;
    let rest = expect_mark(rest, depth, Mark::OpenParen)?;
    let (format, rest) = read_string(alloc, rest, depth + 1)?;
    let (name, rest) = read_shown(alloc, rest, depth)?;
    Ok(((format, name), rest))
}

// The name that a `$display` at this depth shows, if there is one, and what closes the statement.
fn read_shown(
    alloc: Global,
    tokens: &[Token],
    depth: u32,
) -> Result<(Option<Text>, &[Token]), SynFault>
    requires { depth ≤ 200 }
    ensures reads { Reads (λ x. x) (shown_end depth) Any (all_coded tokens.now) result }
    ensures shorter { IfOk result (λ x. length x.1.now < length tokens.now) }
{
    match behind_mark(tokens, depth + 1, Mark::Comma) {
        Some(rest) => {
            let (name, rest) = read_name(alloc, rest, depth + 1)?;
            let rest = expect_closing(rest, depth)?;
            Ok((Some(name), rest))
        }
        None => {
            let rest = expect_closing(tokens, depth)?;
            Ok((None, rest))
        }
    }
}

/// The tokens after `)` and `;`, which come first.
pub fn expect_closing(tokens: &[Token], depth: u32) -> Result<&[Token], SynFault>
    ensures reads { Expects (closing depth) (all_coded tokens.now) result }
    ensures certain { IfErr result (λ e. e ≡ fault.NoTree) }
    ensures shorter { IfOk result (λ rest. length rest.now < length tokens.now) }
{
    let rest = expect_mark(tokens, depth, Mark::CloseParen)?;
    expect_mark(rest, depth, Mark::Semicolon)
}

// The line of a `$stop`.
fn read_stop(tokens: &[Token], depth: u32) -> Result<(u32, &[Token]), SynFault>
    ensures reads { Reads (λ line. line) (stop_at depth) Any (all_coded tokens.now) result }
    ensures certain { IfErr result (λ e. e ≡ fault.NoTree) }
    ensures shorter { IfOk result (λ x. length x.1.now < length tokens.now) }
{
    let (line, after) = read_system(tokens, depth, System::Stop)?;
    let rest = expect_mark(after, depth, Mark::Semicolon)?;
    Ok((line, rest))
}
