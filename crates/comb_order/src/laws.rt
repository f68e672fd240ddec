//! Laws of orders and loops. A call does nothing: its contract is the law, over all designs.

ghost use Rattle.comb_order.specs.Laws as laws;

/// A design that has an order has no loop.
pub fn exclusion_law()
    ensures { laws.ExclusionLaw }
{}

/// A well-formed design has an order or a loop.
pub fn existence_law()
    ensures { laws.ExistenceLaw }
{}
