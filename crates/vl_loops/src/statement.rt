//! Loops of statements.

ghost use Rattle.std.specs.Prelude.{◌≡◌, ◌∷◌, [], OnOk};
ghost use Rattle.vl_tree.specs.SyntaxView as view;
ghost use Rattle.vl_design.specs.LoopVariables.{loop_names, all_loop_names, branch_loop_names, arm_loop_names};
ghost use Rattle.vl_loops.specs.Statements.{Adds, stmts_of, branches_of, arms_of};

use std::alloc::AllocError;
use vl_tree::expression::Name;
use vl_tree::statement::{Arm, Branch, Stmt};

/// Appends the names of the variables of a statement's loops.
#[cycle(loops)]
pub fn loop_names<'a>(s: &'a Stmt, names: &mut Vec<&'a Name>) -> Result<(), AllocError>
    ensures { let stmt = view.stmt s.now in
        OnOk result (Adds (Rattle.vl_design.specs.LoopVariables.loop_names stmt) names.old.items names.new.items) }
{
    match s {
        Stmt::Block(_, _, all) => in_all(all.as_slice(), names),
        Stmt::Conditional(all, last) => {
            in_branches(all.as_slice(), names)?;
            match last {
                Some(body) => loop_names(body.get(), names),
                None => Ok(()),
            }
        }
        Stmt::Select(_, _, _, all) => in_arms(all.as_slice(), names),
        Stmt::Loop(_, header, body) => {
            push(names, &header.variable)?;
            loop_names(body.get(), names)
        }
        Stmt::Empty(_) => Ok(()),
        Stmt::Assign(_, _, _, _) => Ok(()),
        Stmt::Print(_, _, _) => Ok(()),
        Stmt::FilePrint(_, _, _, _, _) => Ok(()),
        Stmt::Stop(_, _) => Ok(()),
        Stmt::Fatal(_, _) => Ok(()),
    }
}

#[cycle(loops)]
fn in_all<'a>(all: &'a [Stmt], names: &mut Vec<&'a Name>) -> Result<(), AllocError>
    ensures { let ss = stmts_of all.now in
        OnOk result (Adds (all_loop_names ss) names.old.items names.new.items) }
{
    for s in all {
        loop_names(s, names)?;
    }
    Ok(())
}

#[cycle(loops)]
fn in_branches<'a>(all: &'a [Branch<Stmt>], names: &mut Vec<&'a Name>) -> Result<(), AllocError>
    ensures { let bs = branches_of all.now in
        OnOk result (Adds (branch_loop_names bs) names.old.items names.new.items) }
{
    for branch in all {
        loop_names(&branch.body, names)?;
    }
    Ok(())
}

#[cycle(loops)]
fn in_arms<'a>(all: &'a [Arm<Stmt>], names: &mut Vec<&'a Name>) -> Result<(), AllocError>
    ensures { let rest = arms_of all.now in
        OnOk result (Adds (arm_loop_names rest) names.old.items names.new.items) }
{
    for arm in all {
        match arm {
            Arm::Labels(_, body) => loop_names(body, names)?,
            Arm::Default(_, _, body) => loop_names(body, names)?,
        }
    }
    Ok(())
}

fn push<'a>(names: &mut Vec<&'a Name>, name: &'a Name) -> Result<(), AllocError>
    ensures { let x = view.name name.now in
        OnOk result (Adds (x.text ∷ []) names.old.items names.new.items) }
{
    match names.push(name) {
        Ok(()) => Ok(()),
        Err(_) => Err(AllocError),
    }
}
