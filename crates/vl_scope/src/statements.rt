//! The faults of statements: names that are read and written, formats.

ghost use Rattle.std.specs.Prelude.{◌≡◌, map};
ghost use Rattle.vl_tree.specs.View as view;
ghost use Rattle.vl_meaning.specs.Faults as faults;

use crate::scope::Scope;
use dt_core::text::Text;
use flat_ir::format::items;
use vl_tree::expr::{Expr, Primary};
use vl_tree::tree::{Branch, Module, Port, Stmt};

/// Whether each of these statements has no fault.
#[cycle(statements)]
pub fn are_stmts(top: &Module, scope: &Scope<'_>, stmts: &[Stmt]) -> bool
    requires { scope.now ≡ map view.port top.now.ports.items }
    ensures { result ≡ faults.are_stmts (view.module_of top.now) (view.stmts stmts.now) }
{
    for stmt in stmts {
        if !is_stmt(top, scope, stmt) {
            return false;
        }
    }
    true
}

/// Whether a statement has no fault.
#[cycle(statements)]
pub fn is_stmt(top: &Module, scope: &Scope<'_>, stmt: &Stmt) -> bool
    requires { scope.now ≡ map view.port top.now.ports.items }
    ensures { result ≡ faults.is_stmt (view.module_of top.now) (view.stmt stmt.now) }
{
    match stmt {
        Stmt::Block(body) => are_stmts(top, scope, body.as_slice()),
        Stmt::Conditional(branches, otherwise) => {
            if !are_branches(top, scope, branches.as_slice()) {
                return false;
            }
            match otherwise {
                None => true,
                Some(body) => is_stmt(top, scope, body.get()),
            }
        }
        Stmt::Assign(target, value) => {
            is_target(top, scope, target) && is_expr(top, scope, value)
        }
        Stmt::Display(format, argument) => is_display(top, scope, format, argument),
        Stmt::Stop(_) => true,
    }
}

#[cycle(statements)]
fn are_branches(top: &Module, scope: &Scope<'_>, branches: &[Branch<Stmt>]) -> bool
    requires { scope.now ≡ map view.port top.now.ports.items }
    ensures { result ≡ faults.are_branches (view.module_of top.now) (view.branches branches.now) }
{
    for branch in branches {
        if !is_expr(top, scope, &branch.condition) {
            return false;
        }
        if !is_stmt(top, scope, &branch.body) {
            return false;
        }
    }
    true
}

/// Whether each name in an expression may be read.
pub fn is_expr(top: &Module, scope: &Scope<'_>, expr: &Expr) -> bool
    requires { scope.now ≡ map view.port top.now.ports.items }
    ensures { result ≡ faults.is_expr (view.module_of top.now) (view.expr expr.now) }
{
    match expr {
        Expr::Primary(primary) => is_primary(top, scope, primary),
        Expr::Unary(_, operand) => is_primary(top, scope, operand),
        Expr::Binary(left, _, right) => {
            is_primary(top, scope, left) && is_primary(top, scope, right)
        }
    }
}

fn is_primary(top: &Module, scope: &Scope<'_>, primary: &Primary) -> bool
    requires { scope.now ≡ map view.port top.now.ports.items }
    ensures { result ≡ faults.is_primary (view.module_of top.now) (view.primary primary.now) }
{
    match primary {
        Primary::Name(name) => is_read(top, scope, name),
        Primary::Number(_) => true,
    }
}

/// Whether a name may be read: it is declared, and isn't the clock.
pub fn is_read(top: &Module, scope: &Scope<'_>, name: &Text) -> bool
    requires { scope.now ≡ map view.port top.now.ports.items }
    ensures { result ≡ faults.is_read (view.module_of top.now) name.now }
{
    scope.port_of(name).is_some() && name != &top.clock
}

/// Whether a name may be written: an output has it.
pub fn is_target(top: &Module, scope: &Scope<'_>, name: &Text) -> bool
    requires { scope.now ≡ map view.port top.now.ports.items }
    ensures { result ≡ faults.is_target (view.module_of top.now) name.now }
{
    match scope.port_of(name) {
        Some(Port::Output(_, _, _)) => true,
        Some(Port::Input(_)) => false,
        None => false,
    }
}

/// Whether a format shows its argument, if there is one, and that may be read.
pub fn is_display(top: &Module, scope: &Scope<'_>, format: &Text, argument: &Option<Text>) -> bool
    requires { scope.now ≡ map view.port top.now.ports.items }
    ensures { result ≡ faults.is_display (view.module_of top.now) format.now argument.now }
{
    match argument {
        None => is_format(format, 0),
        Some(name) => is_format(format, 1) && is_read(top, scope, name),
    }
}

// Whether a format shows this many arguments, and has no other item.
fn is_format(format: &Text, arguments: usize) -> bool
    ensures { result ≡ faults.is_format format.now arguments }
{
    match items(format.bytes()) {
        Some(shown) => shown == arguments,
        None => false,
    }
}
