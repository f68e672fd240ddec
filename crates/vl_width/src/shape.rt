//! Declared ranges.

ghost use Rattle.std.specs.Prelude.{◌≤◌, ◌-◌, ◌+◌};
ghost use Rattle.dt_core.specs.declared.limits.TheConstants.{MAX_BOUND, MAX_WIDTH};

/// The declared range of a vector, and its sign.
#[derive(Clone, Copy, Debug, PartialEq, Eq)]
pub struct Shape {
    pub left: u32,
    pub right: u32,
    pub signed: bool,
    ghost bounded: { (left ≤ MAX_BOUND) × (right ≤ MAX_BOUND) },
    ghost wide: { (left - right) + (right - left) + 1 ≤ MAX_WIDTH },
}
