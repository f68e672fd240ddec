//! Laws of operators: what an operator gives fits its width.
//!
//! Below: `bit_ops` (operators). Above: what speaks of the values of nodes.
//! Promise: `fits_law`: of operands within their widths each operator gives a value within the width that it has (`specs/Fits`).
#![tactic(auto)]

ghost use Rattle.operator_laws.specs.Fits.{OperatorsFit};

/// Of operands within their widths each operator gives a value within the width that it has.
pub fn fits_law()
    ensures { OperatorsFit }
{}
