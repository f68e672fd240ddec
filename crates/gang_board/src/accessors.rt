//! What is read of a post.

ghost use Rattle.std.specs.Prelude.{◌≡◌, ◌<◌};
ghost use Rattle.token_net.specs.Posts.{sight};
ghost use Rattle.gang_board.specs.Sights.{sight_of, cycle_of};
ghost use Rattle.gang_board.specs.PostStates.{LeaderStands, LaggerStands, lagger, lagger_named};

use crate::posts::{LagPost, LeaderPost, fire_cycle};
use crate::seen::Seen;

impl LeaderPost {
    /// The leader's number.
    pub fn number(&self) -> u32
        ensures { result ≡ self.now.number }
    {
        self.number
    }

    /// The cycle that it is in.
    pub fn position(&self) -> u64
        ensures value { result ≡ self.now.position }
        ensures stands { LeaderStands self.now }
    {
        self.position
    }

    /// Whether it is halted.
    pub fn is_halted(&self) -> bool
        ensures { result ≡ self.now.halted }
    {
        self.halted
    }

    /// Whether it has reported that an assertion of its own fires at its position.
    pub fn has_reported(&self) -> bool
        ensures { result ≡ self.now.reported }
    {
        self.reported
    }

    /// The cycle of the fire word as it was last seen; none where no leader had reported.
    pub fn seen_fire(&self) -> Option<u64>
        ensures { result ≡ cycle_of self.now.seen }
    {
        fire_cycle(self.seen)
    }
}

impl LagPost {
    /// The lagger's number.
    pub fn number(&self) -> u32
        ensures { result ≡ self.now.number }
    {
        self.number
    }

    /// The cycle that it is in.
    pub fn position(&self) -> u64
        ensures value { result ≡ self.now.position }
        ensures stands { LaggerStands self.now }
    {
        self.position
    }

    /// What was last seen of a leader.
    pub fn seen(&self, leader: u32) -> Seen
        requires { leader < (lagger_named self.now).parts }
        ensures { sight_of result ≡ sight (lagger self.now) leader }
    {
        self.sights[leader as usize]
    }
}
