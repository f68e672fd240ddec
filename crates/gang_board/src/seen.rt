//! What a lagger sees of a leader.

/// A leader's position and whether it is halted, as one look found them.
#[derive(Clone, Copy, Debug, PartialEq, Eq)]
pub struct Seen {
    pub position: u64,
    pub halted: bool,
}
