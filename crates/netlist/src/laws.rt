//! Laws of numbered designs. A call does nothing: its contract is the law, over all designs.

ghost use Rattle.netlist.specs.Laws as laws;

/// No bit lies in two parts of a well-formed design.
pub fn parts_law()
    ensures { laws.PartsLaw }
{}

/// The values of the nodes of a well-formed design are the one list in which each node has its value over the others.
pub fn values_law()
    ensures { laws.ValuesLaw }
{}

/// A node of a well-formed design reads lower nodes alone, and it reads bits of a range exactly where its operation
/// does, or a node that it reads.
pub fn reads_law()
    ensures reads { laws.ReadsLaw }
    ensures lower { laws.OperandsLaw }
{}

/// Where a well-formed design has an order, one valuation settles with each state and each row, and it is that of the
/// order.
pub fn settles_law()
    ensures { laws.SettlesOnce }
{}

/// What settles has, in each driven part, the bits of its node, in each register part those of the state, and
/// elsewhere those of the row, or what its signal keeps.
pub fn bits_law()
    ensures { laws.BitsLaw }
{}
