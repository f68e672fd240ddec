//! Laws of programs. A call does nothing: its contract is the law.

ghost use Rattle.step_program.specs.Laws as laws;

/// The value of a rare step is below 2^width, whatever the slots hold.
pub fn fits_law()
    ensures { laws.FitsLaw }
{}

/// A memory that is ready stays so where a number is written to a given slot.
pub fn ready_law()
    ensures { laws.ReadyLaw }
{}
