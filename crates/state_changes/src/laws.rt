//! What follows from the definitions.

ghost use Rattle.state_changes.specs.Laws.{Undoes};

/// What was noted while a state was changed, undone, gives the state before.
pub fn undo_law()
    ensures { Undoes }
{}
