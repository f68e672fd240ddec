//! How a board begins.

ghost use Rattle.std.specs.Prelude.{◌≡◌, ◌≤◌, [], IfOk, OnOk};
ghost use Rattle.gang_board.specs.Begins.{first_word, first_words_of, first_sights_of, named_by, first_view};
ghost use Rattle.gang_board.specs.Begins.{without_leaders, Begins, BeginsAt, IsFirstSeat, AreNewLeaders, AreNewLaggers};
ghost use Rattle.gang_board.specs.Begins.{LeadersParted, AreAllLaggers};

use crate::board::{Board, FIRE_WORD};
use crate::posts::{LagPost, LeaderPost, NONE_YET};
use crate::seen::Seen;
use atomic_table::{Seat, Table};
use board_rule::plays::{FirstLagger, FirstLeader, Names};
use board_rule::setup::{MAX_LEADERS, Setup};
use board_rule::view::View;
use dt_core::fault::NoMemory;
use named_run::run::RunName;
use std::alloc::Global;

impl Board {
    /// A board for as many leaders and laggers, which stand at these positions in the run that `N` names, and the post
    /// of each, in order of number.
    pub fn new<N: RunName>(
        alloc: Global,
        leaders: u32,
        lag: u32,
        leader_at: u64,
        lagger_at: u64,
    ) -> Result<(Board, Vec<LeaderPost>, Vec<LagPost>), NoMemory>
        requires count { (1 ≤ leaders) × (leaders ≤ MAX_LEADERS) }
        requires begins { Begins N.run leaders lag leader_at lagger_at }
        ensures leaders { let n = named_by N.run leaders lag in
            IfOk result (λ r. AreNewLeaders r.0 n leader_at leaders r.1.items) }
        ensures laggers { let n = named_by N.run leaders lag in
            IfOk result (λ r. AreNewLaggers r.0 n leader_at lagger_at leaders r.2.items) }
    {
        let setup = Setup {
            leaders,
            lag,
            leader_at,
            lagger_at,
        };
        let words = first_words(alloc, &setup)?;
        let (table, mut seat) = Table::of_words(alloc, &words, &setup)?;
        table.shared.load::<Names<N>>(&mut seat, FIRE_WORD);
        let board = Board { table };
        let leader_posts = board.leader_posts::<N>(alloc, &setup, &mut seat)?;
        let lag_posts = board.lag_posts::<N>(alloc, &setup, &mut seat)?;
        Ok((board, leader_posts, lag_posts))
    }

    // A post for each leader, out of the seat that has all posts.
    fn leader_posts<N: RunName>(
        &self,
        alloc: Global,
        setup: &Setup,
        seat: &mut Seat<u8, View>,
    ) -> Result<Vec<LeaderPost>, NoMemory>
        requires board { IsFirstSeat self.now setup.now seat.old }
        requires begins { BeginsAt N.run setup.now }
        requires view { seat.old.me ≡ (first_view N.run setup.now, []) }
        ensures board { OnOk result (seat.new.table_id ≡ seat.old.table_id) }
        ensures posts { IfOk result (λ posts. LeadersParted self.now N.run setup.now posts.items seat.new.me) }
    {
        let mut posts = Vec::with_capacity(alloc, setup.leaders as usize)?;
        for number in 0..setup.leaders {
            let theirs = self.table.shared.split_seat::<FirstLeader>(seat);
            let post = LeaderPost {
                seat: theirs,
                number,
                position: setup.leader_at,
                halted: false,
                reported: false,
                seen: NONE_YET,
            };
            if posts.push(post).is_err() {
                return Err(NoMemory);
            }
        }
        Ok(posts)
    }

    // A post for each lagger, out of the seat that has them.
    fn lag_posts<N: RunName>(
        &self,
        alloc: Global,
        setup: &Setup,
        seat: &mut Seat<u8, View>,
    ) -> Result<Vec<LagPost>, NoMemory>
        requires board { IsFirstSeat self.now setup.now seat.old }
        requires begins { BeginsAt N.run setup.now }
        requires view { seat.old.me ≡ (without_leaders N.run setup.now, []) }
        ensures board { OnOk result (seat.new.table_id ≡ seat.old.table_id) }
        ensures posts { IfOk result (λ posts. AreAllLaggers self.now N.run setup.now posts.items) }
    {
        let mut posts = Vec::with_capacity(alloc, setup.leaders as usize)?;
        for number in 0..setup.leaders {
            let sights = first_sights(alloc, setup)?;
            let theirs = self.table.shared.split_seat::<FirstLagger>(seat);
            let post = LagPost {
                seat: theirs,
                number,
                position: setup.lagger_at,
                sights,
            };
            if posts.push(post).is_err() {
                return Err(NoMemory);
            }
        }
        Ok(posts)
    }
}

// The words before any step.
fn first_words(alloc: Global, setup: &Setup) -> Result<Vec<u64>, NoMemory>
    requires { (setup.now.leaders ≤ MAX_LEADERS) × (setup.now.leader_at ≤ 4294967295) }
    ensures { IfOk result (λ words. words.items ≡ first_words_of setup.now) }
{
    let count = 16 * setup.leaders as usize + 8;
    let mut words = Vec::with_capacity(alloc, count)?;
    for place in 0..count {
        if words.push(word_at(setup, place)).is_err() {
            return Err(NoMemory);
        }
    }
    Ok(words)
}

// The word at a place, before any step.
fn word_at(setup: &Setup, place: usize) -> u64
    requires { setup.now.leader_at ≤ 4294967295 }
    ensures { result ≡ first_word setup.now place }
{
    if place == FIRE_WORD {
        NONE_YET
    } else if place % 16 == 8 {
        2 * setup.leader_at
    } else {
        setup.lagger_at
    }
}

// What a lagger has seen before any look: each leader at its first position.
fn first_sights(alloc: Global, setup: &Setup) -> Result<Vec<Seen>, NoMemory>
    ensures { IfOk result (λ sights. sights.items ≡ first_sights_of setup.now) }
{
    let seen = Seen {
        position: setup.leader_at,
        halted: false,
    };
    Ok(vec![in alloc; seen; setup.leaders as usize]?)
}
