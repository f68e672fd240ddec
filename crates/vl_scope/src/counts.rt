//! How many statements stand in a block, and how many `$stop`, each against its limit: what still may stand is counted down.

ghost use Rattle.std.specs.Prelude.{◌≡◌, nat_le};
ghost use Rattle.vl_tree.specs.View as view;
ghost use Rattle.vl_meaning.specs.Faults as faults;
ghost use Rattle.vl_scope.specs.Left.{left_after};

use dt_core::limits::MAX_STATEMENTS;
use vl_tree::tree::{Branch, Module, Stmt};

/// Whether the block of a module has no more statements than may be, itself among them.
pub fn is_short(top: &Module) -> bool
    ensures { result ≡ faults.is_short (view.module_of top.now) }
{
    count_stmts(top.body.as_slice(), MAX_STATEMENTS - 1).is_some()
}

/// Whether one `$stop` at most stands in the block of a module.
pub fn stops_once(top: &Module) -> bool
    ensures { result ≡ nat_le (faults.stmts_stops (view.stmts top.now.body)) 1 }
{
    count_stops(top.body.as_slice(), 1).is_some()
}

fn take_one(left: u32) -> Option<u32>
    ensures { result ≡ left_after left 1 }
{
    left.checked_sub(1)
}

// What is left once these statements are counted, or None where there are more.
#[cycle(counts)]
fn count_stmts(stmts: &[Stmt], mut left: u32) -> Option<u32>
    ensures { result ≡ left_after left (faults.stmts_count (view.stmts stmts.now)) }
{
    for stmt in stmts {
        left = count_stmt(stmt, left)?;
    }
    Some(left)
}

#[cycle(counts)]
fn count_stmt(stmt: &Stmt, left: u32) -> Option<u32>
    ensures { result ≡ left_after left (faults.stmt_count (view.stmt stmt.now)) }
{
    match stmt {
        Stmt::Block(body) => count_stmts(body.as_slice(), take_one(left)?),
        Stmt::Conditional(branches, otherwise) => {
            let behind = count_branches(branches.as_slice(), left)?;
            match otherwise {
                None => Some(behind),
                Some(body) => count_stmt(body.get(), behind),
            }
        }
        Stmt::Assign(_, _) => take_one(left),
        Stmt::Display(_, _) => take_one(left),
        Stmt::Stop(_) => take_one(left),
    }
}

// Each condition is an `if`, so a statement.
#[cycle(counts)]
fn count_branches(branches: &[Branch<Stmt>], mut left: u32) -> Option<u32>
    ensures { result ≡ left_after left (faults.branches_count (view.branches branches.now)) }
{
    for branch in branches {
        left = count_stmt(&branch.body, take_one(left)?)?;
    }
    Some(left)
}

// What is left once the `$stop` in these statements are counted, or None where there are more.
#[cycle(stops)]
fn count_stops(stmts: &[Stmt], mut left: u32) -> Option<u32>
    ensures { result ≡ left_after left (faults.stmts_stops (view.stmts stmts.now)) }
{
    for stmt in stmts {
        left = stops_of(stmt, left)?;
    }
    Some(left)
}

#[cycle(stops)]
fn stops_of(stmt: &Stmt, left: u32) -> Option<u32>
    ensures { result ≡ left_after left (faults.stmt_stops (view.stmt stmt.now)) }
{
    match stmt {
        Stmt::Block(body) => count_stops(body.as_slice(), left),
        Stmt::Conditional(branches, otherwise) => {
            let behind = stops_in_branches(branches.as_slice(), left)?;
            match otherwise {
                None => Some(behind),
                Some(body) => stops_of(body.get(), behind),
            }
        }
        Stmt::Assign(_, _) => Some(left),
        Stmt::Display(_, _) => Some(left),
        Stmt::Stop(_) => take_one(left),
    }
}

#[cycle(stops)]
fn stops_in_branches(branches: &[Branch<Stmt>], mut left: u32) -> Option<u32>
    ensures { result ≡ left_after left (faults.branches_stops (view.branches branches.now)) }
{
    for branch in branches {
        left = stops_of(&branch.body, left)?;
    }
    Some(left)
}
