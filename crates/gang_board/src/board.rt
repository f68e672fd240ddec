//! The board: its words, and the six calls on one post.

ghost use Rattle.std.specs.Prelude.{◌≡◌, ◌<◌, ◌≤◌};
ghost use Rattle.token_net.specs.Posts.{MayRaise, MayHalt, HasSeenFar, sight};
ghost use Rattle.token_net.specs.Network.{raise, halt, fire, lag_raise};
ghost use Rattle.board_rule.specs.Views.{course};
ghost use Rattle.board_rule.specs.Rule.{leader_word, lagger_word};
ghost use Rattle.board_rule.specs.Plays.{Grows};
ghost use Rattle.gang_board.specs.Sights.{sight_of, cycle_of};
ghost use Rattle.gang_board.specs.PostStates.{leader, leader_named, IsLeaderOf, MayReportFire};
ghost use Rattle.gang_board.specs.PostStates.{LeaderEvent, LeaderRaised, LeaderHalted, LeaderReported, LeaderLooks, SawFire};
ghost use Rattle.gang_board.specs.PostStates.{lagger, lagger_named, IsLaggerOf};
ghost use Rattle.gang_board.specs.PostStates.{LaggerEvent, LaggerRaised, LaggerLooks, SawLeader};

use crate::posts::{LagPost, LeaderPost, fire_cycle};
use crate::seen::Seen;
use atomic_table::Table;
use board_rule::plays::{Halts, LagRaises, Raises, Reports, Rule, SeesFire, SeesLeader};
use board_rule::setup::Setup;
use board_rule::view::View;
use std::alloc::Global;

// The place of the fire word.
pub(crate) const FIRE_WORD: usize = 0;

/// Words that leaders and laggers share: a word for each leader, one for each lagger, and the fire word. Between any
/// two steps on them the rule of `board_rule` holds, so all that holds of posts. Each call is one step, and that step
/// is one event of the network on the posts of the whole board (clause `event`).
#[derive(Drop)]
pub struct Board {
    pub(crate) table: Table<u8, View, Setup, Rule, Global>,
}

impl Board {
    /// The leader is one cycle further.
    pub fn raise(&self, post: &mut LeaderPost)
        requires board { IsLeaderOf self.now post.old }
        requires may { MayRaise (course (leader_named post.old)) post.old.number (leader post.old) }
        ensures post { LeaderRaised post.old post.new }
        ensures event { LeaderEvent raise post.old post.new }
    {
        self.table
            .shared
            .fetch_add::<Raises>(&mut post.seat, leader_place(post.number), 2);
        post.position += 1;
    }

    /// The leader is halted.
    pub fn halt(&self, post: &mut LeaderPost)
        requires board { IsLeaderOf self.now post.old }
        requires may { MayHalt (course (leader_named post.old)).rows (leader post.old) }
        ensures post { LeaderHalted post.old post.new }
        ensures event { LeaderEvent halt post.old post.new }
    {
        self.table
            .shared
            .fetch_add::<Halts>(&mut post.seat, leader_place(post.number), 1);
        post.halted = true;
    }

    /// The leader reports that an assertion of its own fires at its position, which is `cycle`.
    pub fn report_fire(&self, post: &mut LeaderPost, cycle: u64)
        requires board { IsLeaderOf self.now post.old }
        requires may { MayReportFire post.old }
        requires cycle { cycle ≡ post.old.position }
        ensures post { LeaderReported post.old post.new }
        ensures event { LeaderEvent fire post.old post.new }
    {
        self.table
            .shared
            .fetch_min::<Reports>(&mut post.seat, FIRE_WORD, cycle);
        post.reported = true;
    }

    /// The cycle that the fire word tells, as this load finds it.
    pub fn see_fire(&self, post: &mut LeaderPost) -> Option<u64>
        requires { IsLeaderOf self.now post.old }
        ensures post { LeaderLooks post.old post.new }
        ensures value { result ≡ cycle_of post.new.seen }
        ensures event { SawFire post.old post.new }
        ensures falls { post.new.seen ≤ post.old.seen }
    {
        let found = self
            .table
            .shared
            .load::<SeesFire>(&mut post.seat, FIRE_WORD);
        post.seen = found;
        fire_cycle(found)
    }

    /// What this load finds of a leader.
    pub fn see_leader(&self, post: &mut LagPost, leader: u32) -> Seen
        requires board { IsLaggerOf self.now post.old }
        requires there { leader < (lagger_named post.old).parts }
        ensures post { LaggerLooks post.old post.new leader (sight_of result) }
        ensures event { SawLeader post.old post.new leader (sight_of result) }
        ensures grows { Grows (sight (lagger post.old) leader) (sight_of result) }
    {
        let found = self
            .table
            .shared
            .load::<SeesLeader>(&mut post.seat, leader_place(leader));
        let seen = Seen {
            position: found / 2,
            halted: found % 2 == 1,
        };
        post.sights[leader as usize] = seen;
        seen
    }

    /// The lagger is one cycle further.
    pub fn lag_raise(&self, post: &mut LagPost)
        requires board { IsLaggerOf self.now post.old }
        requires far { HasSeenFar (lagger_named post.old).parts (lagger_named post.old).lag (lagger post.old) }
        ensures post { LaggerRaised post.old post.new }
        ensures event { LaggerEvent lag_raise post.old post.new }
    {
        self.table
            .shared
            .fetch_add::<LagRaises>(&mut post.seat, lagger_place(post.number), 1);
        post.position += 1;
    }
}

// The place of a leader's word.
pub(crate) fn leader_place(number: u32) -> usize
    ensures { result ≡ leader_word number }
{
    16 * number as usize + 8
}

// The place of a lagger's word.
pub(crate) fn lagger_place(number: u32) -> usize
    ensures { result ≡ lagger_word number }
{
    16 * number as usize + 16
}
