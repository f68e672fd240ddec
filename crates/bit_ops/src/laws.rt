//! Laws of the operators. A call does nothing: its contract is the law, over all widths and values.

ghost use Rattle.bit_ops.specs.Laws as laws;

/// Quotient and remainder fit together, for every sign, and the quotient is truncated toward 0.
pub fn division_law()
    ensures { laws.DivisionLaw }
{}

/// An extension keeps the number that a vector stands for.
pub fn extension_law()
    ensures { laws.ExtensionLaw }
{}

/// `insert` after `select` of the same place gives the vector back, and `select` after `insert` within the vector the part;
/// the bits beside the part stay.
pub fn places_law()
    ensures back { laws.PutBackLaw }
    ensures part { laws.ReadBackLaw }
    ensures beside { laws.BesideLaw }
{}

/// `concat` and `select` undo each other.
pub fn concatenation_law()
    ensures parts { laws.PartsLaw }
    ensures whole { laws.WholeLaw }
{}
