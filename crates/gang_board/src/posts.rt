//! The posts of leaders and laggers.

ghost use Rattle.std.specs.Prelude.{◌≡◌, length, map};
ghost use Rattle.token_net.specs.Posts.{none_yet};
ghost use Rattle.gang_board.specs.Seats.{IsLeaderSeat, IsLaggerSeat};
ghost use Rattle.gang_board.specs.Sights.{sight_of, cycle_of};

use crate::seen::Seen;
use atomic_table::Seat;
use board_rule::view::View;

/// The fire word where no leader has reported.
pub(crate) const NONE_YET: u64 = u64::MAX;

/// What a leader lets others know: its position, whether it is halted, and whether it has reported; and what it has
/// seen of the fire word.
///
/// `specs/PostStates` has it as a value (`leader`), with the run and the lag that it names and the count of its looks.
#[derive(Drop)]
pub struct LeaderPost {
    pub(crate) seat: Seat<u8, View>,
    pub(crate) number: u32,
    pub(crate) position: u64,
    pub(crate) halted: bool,
    pub(crate) reported: bool,
    pub(crate) seen: u64,
    ghost is: { IsLeaderSeat seat.table_id.words number (record {
      at = position;
      halted = halted;
      reported = reported;
      seen = seen;
    }) seat.me },
}

/// What a lagger lets others know, its position; and what it has seen of each leader.
///
/// `specs/PostStates` has it as a value (`lagger`), with the run and the lag that it names and the counts of its looks.
#[derive(Drop)]
pub struct LagPost {
    pub(crate) seat: Seat<u8, View>,
    pub(crate) number: u32,
    pub(crate) position: u64,
    pub(crate) sights: Vec<Seen>,
    ghost is: { IsLaggerSeat seat.table_id.words number (record {
      at = position;
      sights = map sight_of sights.items;
    }) seat.me },
    ghost sized: { length sights.items ≡ seat.me.0.named.parts },
}

// The cycle that the fire word tells.
pub(crate) fn fire_cycle(word: u64) -> Option<u64>
    ensures { result ≡ cycle_of word }
{
    if word == NONE_YET { None } else { Some(word) }
}
