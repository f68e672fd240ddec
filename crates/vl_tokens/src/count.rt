//! Counts that stop at the most that 32 bits hold.

ghost use Rattle.std.specs.Prelude.{◌≡◌, ◌+◌, length};
ghost use Rattle.vl_tree.specs.Depth.{one_if};
ghost use Rattle.vl_tokens.specs.Counted.{capped};

/// Two counts together.
pub fn plus(a: u32, b: u32) -> u32
    ensures { result ≡ capped (a + b) }
{
    a.saturating_add(b)
}

/// The one token that stands where this holds.
pub fn one_where(stands: bool) -> u32
    ensures { result ≡ capped (length (one_if 0 stands)) }
{
    if stands { 1 } else { 0 }
}
