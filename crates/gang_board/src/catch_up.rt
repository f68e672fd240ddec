//! All posts brought up to date at one moment.
//!
//! Their seats are joined, one after another, so that one seat has all posts. It looks at each leader's word and at the
//! fire word, and then each post gets a seat of its own again.

ghost use Rattle.std.specs.Prelude.{◌≡◌, ◌+◌, ◌≤◌, map, length, []};
ghost use Rattle.board_rule.specs.Views.{Named};
ghost use Rattle.board_rule.specs.Plays.{no_posts};
ghost use Rattle.gang_board.specs.PostStates.{leader_named, IsLeaderOf};
ghost use Rattle.gang_board.specs.CatchUp.{AreAllPosts, AreLeaders, AreLaggers, IsLeaderAt, IsLaggerAt, IsCarrier};
ghost use Rattle.gang_board.specs.CatchUp.{Looked, LeadersLooked, LeaderLooked, AllLooked, LaggerLooked, CatchesUp};
ghost use Rattle.gang_board.specs.CatchUp.{seen_of};

use crate::board::{Board, FIRE_WORD, leader_place};
use crate::posts::{LagPost, LeaderPost, fire_cycle};
use crate::seen::Seen;
use atomic_table::Seat;
use board_rule::plays::{EmptySeat, FirstLagger, FirstLeader, SeesFire, SeesLeader, Together};
use board_rule::view::View;
use std::mem;

impl Board {
    // A seat without posts.
    fn empty_seat(&self, post: &mut LeaderPost) -> Seat<u8, View>
        requires { IsLeaderOf self.now post.old }
        ensures post { post.new ≡ post.old }
        ensures seat { (result.table_id ≡ post.old.seat.table_id) × (result.me ≡ (no_posts (leader_named post.old), [])) }
    {
        self.table.shared.split_seat::<EmptySeat>(&mut post.seat)
    }

    // The seat that has all posts looks at each leader's word and at the fire word, which is the result.
    fn look(&self, count: u32, carrier: &mut Seat<u8, View>) -> u64
        requires carrier { IsCarrier self.now 0 0 carrier.old }
        requires count { (count ≡ carrier.old.me.0.named.parts) × (1 ≤ count) }
        ensures { Looked result carrier.old carrier.new }
    {
        for leader in 0..count {
            self.table
                .shared
                .load::<SeesLeader>(carrier, leader_place(leader));
        }
        self.table.shared.load::<SeesFire>(carrier, FIRE_WORD)
    }

    // The seat has the posts of all laggers and of the leaders after these; with these, it looks.
    #[cycle(leaders)]
    fn with_leaders(
        &self,
        count: u32,
        carrier: &mut Seat<u8, View>,
        leaders: &mut [LeaderPost],
    ) -> u64
        requires carrier { IsCarrier self.now (length leaders.old) 0 carrier.old }
        requires leaders { AreLeaders self.now carrier.old.me.0.named leaders.old }
        requires count { (count ≡ carrier.old.me.0.named.parts) × (1 ≤ count) }
        ensures { LeadersLooked result carrier.old carrier.new leaders.old leaders.new }
    {
        match leaders.split_last_mut() {
            Some((post, rest)) => self.with_leader(count, carrier, post, rest),
            None => self.look(count, carrier),
        }
    }

    // The same with one more leader, after those.
    #[cycle(leaders)]
    fn with_leader(
        &self,
        count: u32,
        carrier: &mut Seat<u8, View>,
        post: &mut LeaderPost,
        rest: &mut [LeaderPost],
    ) -> u64
        requires carrier { IsCarrier self.now (length rest.old + 1) 0 carrier.old }
        requires post { IsLeaderAt self.now carrier.old.me.0.named (length rest.old) post.old }
        requires rest { AreLeaders self.now carrier.old.me.0.named rest.old }
        requires count { (count ≡ carrier.old.me.0.named.parts) × (1 ≤ count) }
        ensures { LeaderLooked result carrier.old carrier.new rest.old rest.new post.old post.new }
    {
        let empty = self.table.shared.split_seat::<EmptySeat>(carrier);
        let theirs = mem::replace(&mut post.seat, empty);
        self.table.shared.join_seat::<Together>(carrier, theirs);
        let word = self.with_leaders(count, carrier, rest);
        let mine = self.table.shared.split_seat::<FirstLeader>(carrier);
        drop(mem::replace(&mut post.seat, mine));
        post.seen = word;
        word
    }

    // The seat has the posts of the laggers after these, and of no leader; with all posts, it looks.
    #[cycle(laggers)]
    fn with_laggers(
        &self,
        count: u32,
        carrier: &mut Seat<u8, View>,
        leaders: &mut [LeaderPost],
        laggers: &mut [LagPost],
    ) -> u64
        requires carrier { IsCarrier self.now (length leaders.old) (length laggers.old) carrier.old }
        requires leaders { AreLeaders self.now carrier.old.me.0.named leaders.old }
        requires laggers { AreLaggers self.now carrier.old.me.0.named laggers.old }
        requires count { (count ≡ carrier.old.me.0.named.parts) × (1 ≤ count) }
        requires all { length leaders.old ≡ carrier.old.me.0.named.parts }
        ensures { AllLooked result carrier.old carrier.new leaders.old leaders.new laggers.old laggers.new }
    {
        match laggers.split_last_mut() {
            Some((post, rest)) => self.with_lagger(count, carrier, leaders, post, rest),
            None => self.with_leaders(count, carrier, leaders),
        }
    }

    // The same with one more lagger, after those.
    #[cycle(laggers)]
    fn with_lagger(
        &self,
        count: u32,
        carrier: &mut Seat<u8, View>,
        leaders: &mut [LeaderPost],
        post: &mut LagPost,
        rest: &mut [LagPost],
    ) -> u64
        requires carrier { IsCarrier self.now (length leaders.old) (length rest.old + 1) carrier.old }
        requires leaders { AreLeaders self.now carrier.old.me.0.named leaders.old }
        requires post { IsLaggerAt self.now carrier.old.me.0.named (length rest.old) post.old }
        requires rest { AreLaggers self.now carrier.old.me.0.named rest.old }
        requires count { (count ≡ carrier.old.me.0.named.parts) × (1 ≤ count) }
        requires all { length leaders.old ≡ carrier.old.me.0.named.parts }
        ensures { LaggerLooked result carrier.old carrier.new leaders.old leaders.new
            rest.old rest.new post.old post.new }
    {
        let empty = self.table.shared.split_seat::<EmptySeat>(carrier);
        let theirs = mem::replace(&mut post.seat, empty);
        self.table.shared.join_seat::<Together>(carrier, theirs);
        let word = self.with_laggers(count, carrier, leaders, rest);
        let mine = self.table.shared.split_seat::<FirstLagger>(carrier);
        drop(mem::replace(&mut post.seat, mine));
        see_all(&mut post.sights, leaders);
        word
    }

    /// Every lagger sees every leader, and every leader the fire word, as they are at one moment; the cycle that the
    /// fire word tells then. The slices have all posts of the board, in order of number. Looks are counted anew.
    pub fn catch_up(&self, leaders: &mut [LeaderPost], laggers: &mut [LagPost]) -> Option<u64>
        requires { (n : Named) × AreAllPosts self.now n leaders.old laggers.old }
        ensures { (n : Named) → AreAllPosts self.now n leaders.old laggers.old
            → CatchesUp n result leaders.old leaders.new laggers.old laggers.new }
    {
        let mut carrier = self.empty_seat(&mut leaders[0]);
        let count = leaders.len() as u32;
        let word = self.with_laggers(count, &mut carrier, leaders, laggers);
        fire_cycle(word)
    }
}

// What a lagger sees of all leaders.
fn see_all(sights: &mut Vec<Seen>, leaders: &[LeaderPost])
    requires { length sights.old.items ≡ length leaders.now }
    ensures { sights.new.items ≡ map seen_of leaders.now }
{
    for number in 0..leaders.len() {
        sights[number] = Seen {
            position: leaders[number].position(),
            halted: leaders[number].is_halted(),
        };
    }
}
