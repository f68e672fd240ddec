//! Trees of their parts.

ghost use Rattle.std.specs.Prelude.{◌≡◌, IfOk};
ghost use Rattle.vl_tree.specs.SyntaxView as view;
ghost use Rattle.vl_expr.specs.Lists as list;

use sqlite_items::{Boxed, Items};
use std::alloc::{AllocError, Global};
use vl_tree::expression::{Choice, Expr, Link};

/// The last value of choices, with the choices before it if there are some.
pub fn chosen(alloc: Global, choices: Items<Choice<Expr>>, last: Expr) -> Result<Expr, AllocError>
    ensures { IfOk result (λ e. view.expr e ≡ list.chosen (list.choices_of choices) (view.expr last)) }
{
    if choices.is_empty() {
        return Ok(last);
    }
    let last = Boxed::new(alloc, last)?;
    Ok(Expr::Choose(choices, last))
}

/// An operand, with the operators after it if there are some.
pub fn linked(alloc: Global, first: Expr, links: Items<Link<Expr>>) -> Result<Expr, AllocError>
    ensures { IfOk result (λ e. view.expr e ≡ list.linked (view.expr first) (list.links_of links)) }
{
    if links.is_empty() {
        return Ok(first);
    }
    let first = Boxed::new(alloc, first)?;
    Ok(Expr::Chain(first, links))
}
