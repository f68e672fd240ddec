//! Sizes.

ghost use Rattle.std.specs.Prelude.{◌≡◌, ◌≤◌, ◌&&◌, max};
ghost use Rattle.dt_core.specs.declared.limits.TheConstants.{MAX_WIDTH};

/// A width in bits, and whether what has it is signed.
#[derive(Clone, Copy, Debug, PartialEq, Eq)]
pub struct Size {
    pub width: u32,
    pub signed: bool,
    ghost wide: { (1 ≤ width) × (width ≤ MAX_WIDTH) },
}

impl Size {
    /// The size of operands that take one size: the larger width, signed where both are.
    pub fn joint(self, other: Size) -> Size
        ensures width { result.width ≡ max self.width other.width }
        ensures signed { result.signed ≡ (self.signed && other.signed) }
    {
        Size {
            width: self.width.max(other.width),
            signed: both_signed(self.signed, other.signed),
        }
    }
}

/// Whether what takes two operands is signed: where both are.
pub fn both_signed(left: bool, right: bool) -> bool
    ensures { result ≡ (left && right) }
{
    left && right
}
