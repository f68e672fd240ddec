//! Where an expression begins.

ghost use Rattle.std.specs.Prelude.{◌≡◌};
ghost use Rattle.vl_tree.specs.SyntaxView as view;
ghost use Rattle.vl_value.specs.Faults as faults;
ghost use Rattle.vl_width.specs.Lists.{choices_of};
ghost use Rattle.std.specs.Option.{option_map, unwrap_or};

use dt_core::place::Place;
use vl_tree::expression::{Choice, Expr};

/// The place of an expression's first token.
#[cycle(start)]
pub fn start(e: &Expr) -> Place
    ensures { view.place result ≡ faults.start (view.expr e.now) }
{
    match e {
        Expr::Number(place, _)
        | Expr::System(place, _, _)
        | Expr::Group(place, _)
        | Expr::Concat(place, _)
        | Expr::Repeat(place, _, _)
        | Expr::Unary(place, _, _) => *place,
        Expr::Read(name, _) | Expr::Call(name, _) => name.place,
        Expr::Chain(first, _) => start(first.get()),
        Expr::Choose(choices, last) => match choices_start(choices.as_slice()) {
            Some(place) => place,
            None => start(last.get()),
        },
    }
}

// The place of the first condition's first token, if there is one.
#[cycle(start)]
fn choices_start(choices: &[Choice<Expr>]) -> Option<Place>
    ensures { let hs = choices_of choices.now in
        (p : _) → faults.choices_start hs p ≡ unwrap_or (option_map view.place result) p }
{
    match choices.first() {
        Some(choice) => Some(start(&choice.condition)),
        None => None,
    }
}
