//! What a board begins with.

/// The number of leaders, the lag, and where leaders and laggers stand.
#[derive(Clone, Copy, Debug)]
pub struct Setup {
    pub leaders: u32,
    pub lag: u32,
    pub leader_at: u64,
    pub lagger_at: u64,
}

/// The most leaders of a board.
pub const MAX_LEADERS: u32 = 16;
