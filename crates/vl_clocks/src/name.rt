//! Plain names.

ghost use Rattle.std.specs.Prelude.{◌≡◌, OnOk};
ghost use Rattle.vl_tree.specs.SyntaxView as view;
ghost use Rattle.vl_clocks.specs.Names.{Adds, listed, plain_names};

use std::alloc::AllocError;
use vl_tree::expression::{Expr, Name};

/// The name that an expression is, if it is a name without selects.
pub fn plain_name(e: &Expr) -> Option<&Name>
    ensures { listed result ≡ plain_names (view.expr e.now) }
{
    match e {
        Expr::Read(name, selects) => {
            if selects.as_slice().is_empty() {
                Some(name)
            } else {
                None
            }
        }
        Expr::Number(_, _) => None,
        Expr::Call(_, _) => None,
        Expr::System(_, _, _) => None,
        Expr::Group(_, _) => None,
        Expr::Concat(_, _) => None,
        Expr::Repeat(_, _, _) => None,
        Expr::Unary(_, _, _) => None,
        Expr::Chain(_, _) => None,
        Expr::Choose(_, _) => None,
    }
}

/// Appends a name, if there is one.
pub fn push<'a>(names: &mut Vec<&'a Name>, name: Option<&'a Name>) -> Result<(), AllocError>
    ensures { OnOk result (Adds (listed name.entry) names.old.items names.new.items) }
{
    let Some(one) = name else {
        return Ok(());
    };
    match names.push(one) {
        Ok(()) => Ok(()),
        Err(_) => Err(AllocError),
    }
}
