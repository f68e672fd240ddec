//! What a seat at the board knows. No value of it is made.

ghost use Rattle.std.specs.Prelude.{List};
ghost use Rattle.std.specs.Borrow.{ftrue};
ghost use Rattle.board_rule.specs.Views.{Named, HeldLeader, HeldLagger};

use std::marker::Model;

/// The run, and the posts that the seat has. A seat that was joined to another has none.
pub struct View {
    pub ghost named: { Named },
    pub ghost leaders: { List HeldLeader },
    pub ghost laggers: { List HeldLagger },
}

impl Model for View {
    ghost also_owns = { λ _. ftrue };
}
