//! Conditions: which text is read.

ghost use Rattle.std.specs.Prelude.{◌≡◌, ◌&&◌, ◌||◌, not};
ghost use Rattle.vl_pre.specs.Calls.Views as v;

/// A condition's branch: none was read yet, this one is read, or no further one is read.
#[derive(Clone, Copy, Debug)]
pub enum Branch {
    Waiting,
    Reading,
    Over,
}

/// An open condition.
#[derive(Clone, Copy, Debug)]
pub struct Condition {
    /// The line of its `ifdef` or `ifndef`.
    pub line: u32,
    pub branch: Branch,
    /// Whether the branch is the one of `else`.
    pub last: bool,
}

impl Branch {
    /// Whether the text of this branch is read.
    pub fn is_reading(self) -> bool
        ensures { result ≡ v.is_reading self }
    {
        match self {
            Branch::Reading => true,
            _ => false,
        }
    }
}

/// The first branch of a condition, by whether text is read there and whether it holds.
pub fn first_branch(is_read: bool, holds: bool) -> Branch
    ensures settled { v.is_settled result ≡ (not is_read || holds) }
    ensures reading { v.is_reading result ≡ (is_read && holds) }
{
    match (is_read, holds) {
        (false, _) => Branch::Over,
        (true, true) => Branch::Reading,
        (true, false) => Branch::Waiting,
    }
}

/// The branch after this one, by whether it holds.
pub fn next_branch(branch: Branch, holds: bool) -> Branch
    ensures settled { v.is_settled result ≡ (v.is_settled branch || holds) }
    ensures reading { v.is_reading result ≡ (not (v.is_settled branch) && holds) }
{
    match (branch, holds) {
        (Branch::Waiting, true) => Branch::Reading,
        (Branch::Waiting, false) => Branch::Waiting,
        _ => Branch::Over,
    }
}
