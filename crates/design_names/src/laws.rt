//! Laws of what a design shows. A call does nothing: its contract is the law, over all designs.

ghost use Rattle.design_names.specs.Laws as laws;

/// The variables of the waveform are the shown signals in their order, and each of them is there.
pub fn shown_law()
    ensures variables { laws.VariablesAreShown }
    ensures there { laws.ShownAreThere }
{}

/// The outline names scopes and signals that are there.
pub fn outline_law()
    ensures { laws.OutlineFits }
{}

/// What fires has the number of an assertion that is there.
pub fn stops_law()
    ensures { laws.StopsAreThere }
{}

/// A clock shows 0 where a cycle settles.
pub fn clocks_law()
    ensures { laws.ClocksAreZero }
{}
