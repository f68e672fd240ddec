//! Actions of statements, each under the condition in which the statement is executed.

ghost use Rattle.std.specs.Prelude.{◌≡◌, ◌<◌, true, IfOk, OnOk, length};
ghost use Rattle.flat_ir.specs.declared.design.Node.{Node};
ghost use Rattle.vl_tree.specs.View as view;
ghost use Rattle.vl_tree.specs.Tree as tree;
ghost use Rattle.vl_meaning.specs.Faults.{is_stmt, are_stmts, are_branches, is_expr, is_display, is_target};
ghost use Rattle.vl_meaning.specs.Statement.{execute, execute_all};
ghost use Rattle.vl_proc.specs.Scopes.{IsKnown, module_in};
ghost use Rattle.vl_proc.specs.Lowers.{Adds, Branched, Shows, context, is_shown};

use crate::builder::{Builder, Nodes};
use crate::expression;
use crate::names::Scope;
use dt_core::fault::NoMemory;
use dt_core::text::Text;
use flat_ir::design::{Deed, Node, Role};
use std::alloc::Global;
use vl_tree::expr::Expr;
use vl_tree::tree::{Branch, Stmt};

/// Adds the actions of statements, in order.
#[cycle(statement)]
pub fn block(
    alloc: Global,
    to: &mut Builder,
    scope: &Scope,
    all: &[Stmt],
    condition: u32,
) -> Result<(), NoMemory>
    requires known { IsKnown scope.now }
    requires sound { are_stmts (module_in scope.now) (view.stmts all.now) ≡ true }
    requires here { condition < length to.old.nodes }
    ensures { let m = module_in scope.now in OnOk result (Adds m to.old.nodes to.new.nodes to.old.actions.items to.new.actions.items condition (λ row state. execute_all (context m row state) (view.stmts all.now))) }
{
    for s in all {
        statement(alloc, to, scope, s, condition)?;
    }
    Ok(())
}

// Adds the actions of a statement.
#[cycle(statement)]
fn statement(
    alloc: Global,
    to: &mut Builder,
    scope: &Scope,
    s: &Stmt,
    condition: u32,
) -> Result<(), NoMemory>
    requires known { IsKnown scope.now }
    requires sound { is_stmt (module_in scope.now) (view.stmt s.now) ≡ true }
    requires here { condition < length to.old.nodes }
    ensures { let m = module_in scope.now in OnOk result (Adds m to.old.nodes to.new.nodes to.old.actions.items to.new.actions.items condition (λ row state. execute (context m row state) (view.stmt s.now))) }
{
    match s {
        Stmt::Block(all) => block(alloc, to, scope, all.as_slice(), condition),
        Stmt::Conditional(all, last) => {
            let rest = branches(alloc, to, scope, all.as_slice(), condition)?;
            match last {
                Some(last) => statement(alloc, to, scope, last.get(), rest),
                None => Ok(()),
            }
        }
        Stmt::Assign(name, value) => assign(to, scope, name, value, condition),
        Stmt::Display(format, shown) => display(alloc, to, scope, format.bytes(), shown, condition),
        Stmt::Stop(line) => to.act(condition, Deed::Stop(*line)),
    }
}

// Adds the actions of the branches of a chain, and gives the node of the condition that none of them holds.
#[cycle(statement)]
fn branches(
    alloc: Global,
    to: &mut Builder,
    scope: &Scope,
    all: &[Branch<Stmt>],
    condition: u32,
) -> Result<u32, NoMemory>
    requires known { IsKnown scope.now }
    requires sound { are_branches (module_in scope.now) (view.branches all.now) ≡ true }
    requires here { condition < length to.old.nodes }
    ensures { let m = module_in scope.now in IfOk result (λ rest. Branched m to.old.nodes to.new.nodes to.old.actions.items to.new.actions.items condition rest (view.branches all.now)) }
{
    let mut rest = condition;
    for branch in all {
        let test = expression::condition(&mut to.nodes, scope, &branch.condition)?;
        let here = to.nodes.add(Node::And(rest, test))?;
        statement(alloc, to, scope, &branch.body, here)?;
        let failed = to.nodes.add(Node::Not(test))?;
        rest = to.nodes.add(Node::And(rest, failed))?;
    }
    Ok(rest)
}

// Adds the write of an assignment.
fn assign(
    to: &mut Builder,
    scope: &Scope,
    target: &Text,
    value: &Expr,
    condition: u32,
) -> Result<(), NoMemory>
    requires known { IsKnown scope.now }
    requires target { is_target (module_in scope.now) target.now ≡ true }
    requires value { is_expr (module_in scope.now) (view.expr value.now) ≡ true }
    requires here { condition < length to.old.nodes }
    ensures { let m = module_in scope.now in OnOk result (Adds m to.old.nodes to.new.nodes to.old.actions.items to.new.actions.items condition (λ row state. execute (context m row state) (tree.assign target.now (view.expr value.now)))) }
{
    let signal = scope.signal(target);
    match signal.role {
        Role::Register(register) => {
            let node = expression::assigned(&mut to.nodes, scope, value, signal.width)?;
            to.act(condition, Deed::Write(register, node))
        }
        _ => unreachable!(),
    }
}

// Adds a text that is said.
fn display(
    alloc: Global,
    to: &mut Builder,
    scope: &Scope,
    format: &[u8],
    shown: &Option<Text>,
    condition: u32,
) -> Result<(), NoMemory>
    requires known { IsKnown scope.now }
    requires sound { is_display (module_in scope.now) format.now shown.now ≡ true }
    requires here { condition < length to.old.nodes }
    ensures { let m = module_in scope.now in OnOk result (Adds m to.old.nodes to.new.nodes to.old.actions.items to.new.actions.items condition (λ row state. execute (context m row state) (tree.display format.now shown.now))) }
{
    let node = argument(&mut to.nodes, scope, shown)?;
    let format = Text::copied(alloc, format)?;
    to.act(condition, Deed::Say(format, node))
}

// The node of the argument of a format, if there is one.
fn argument(nodes: &mut Nodes, scope: &Scope, shown: &Option<Text>) -> Result<Option<u32>, NoMemory>
    requires known { IsKnown scope.now }
    requires sound { is_shown (module_in scope.now) shown.now ≡ true }
    ensures { let m = module_in scope.now in IfOk result (λ node. Shows m nodes.old nodes.new node shown.now) }
{
    match shown {
        Some(name) => Ok(Some(expression::read(nodes, scope, name)?)),
        None => Ok(None),
    }
}
