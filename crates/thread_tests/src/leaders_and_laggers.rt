//! Sixteen leaders and sixteen laggers on threads of their own, on one board.

ghost use Rattle.std.specs.Prelude.{◌≡◌, ℕ, ◌+◌, ◌<◌, ◌≤◌, length, IsTrue};
ghost use Rattle.token_net.specs.Posts.{sight};
ghost use Rattle.gang_board.specs.PostStates.{lagger, lagger_named};
ghost use Rattle.gang_board.specs.Begins.{AreNewLeaders, AreNewLaggers, IsNewLeader, IsNewLagger};
ghost use Rattle.gang_board.specs.CatchUp.{IsLeaderAt, IsLaggerAt, AreLeaders, AreLaggers};
ghost use Rattle.thread_tests.specs.Runs.{failing_named, IsGoing, AreFollowing};

use gang_board::board::Board;
use gang_board::posts::{LagPost, LeaderPost};
use std::sync::Wait;
use std::thread;
use std::thread::{Threads, join_mut};

/// How many leaders there are, and so laggers.
pub const MANY: u32 = 16;

/// The lag.
pub const LAG: u64 = 8;

/// The cycle in which an assertion of every leader fires.
pub const FAILURE: u64 = 1_000;

// The leader goes on to the failure, and looks at the fire word in each cycle.
fn go_on(board: &Board, post: &mut LeaderPost)
    requires { IsGoing board.now post.old.number 0 post.old }
    ensures { IsGoing board.now post.old.number 1000 post.new }
{
    for _ in 0..FAILURE {
        board.see_fire(post);
        board.raise(post);
    }
}

// A leader's whole run.
fn lead(board: &Board, number: usize, post: &mut LeaderPost)
    requires { (number < 16) × IsNewLeader board.now failing_named 0 number post.old }
    ensures { IsLeaderAt board.now failing_named number post.new }
{
    go_on(board, post);
    board.report_fire(post, FAILURE);
    board.see_fire(post);
    board.halt(post);
}

// Whether a lagger has seen each leader at this position or further.
fn has_seen_far(post: &LagPost, position: u64) -> bool
    requires { lagger_named post.now ≡ failing_named }
    ensures { IsTrue result → (p : ℕ) → p < 16 → position ≤ (sight (lagger post.now) p).at }
{
    for number in 0..MANY {
        if post.seen(number).position < position {
            return false;
        }
    }
    true
}

// The lagger looks at each leader until it has seen all at this position or further.
fn wait_for<R: Wait>(rt: &R, board: &Board, post: &mut LagPost, position: u64)
    requires { IsLaggerAt board.now failing_named post.old.number post.old }
    ensures post { IsLaggerAt board.now failing_named post.old.number post.new }
    ensures at { post.new.position ≡ post.old.position }
    ensures far { (p : ℕ) → p < 16 → position ≤ (sight (lagger post.new) p).at }
{
    for _ in rt.forever() {
        for number in 0..MANY {
            board.see_leader(post, number);
        }
        if has_seen_far(post, position) {
            return;
        }
        thread::yield_now();
    }
    unreachable!()
}

// A lagger's whole run.
fn follow<R: Wait>(rt: &R, board: &Board, number: usize, post: &mut LagPost)
    requires { IsNewLagger board.now failing_named 0 0 number post.old }
    ensures { IsLaggerAt board.now failing_named number post.new }
{
    for at in 0..FAILURE - LAG {
        wait_for(rt, board, post, at + 1 + LAG);
        board.lag_raise(post);
    }
}

fn lead_all<R: Threads + Sync>(rt: &R, board: &Board, leaders: &mut [LeaderPost])
    requires { AreNewLeaders board.now failing_named 0 16 leaders.old }
    ensures { (length leaders.new ≡ 16) × AreLeaders board.now failing_named leaders.new }
{
    thread::for_each_mut(
        rt,
        leaders,
        16,
        &|number: usize, post: &mut LeaderPost|
            requires { (number < 16) × IsNewLeader board.now failing_named 0 number post.now }
            ensures { IsLeaderAt board.entry.now failing_named number post.exit.now }
        { lead(board, number, post) },
    );
}

fn follow_all<R: Threads + Wait + Sync>(rt: &R, board: &Board, laggers: &mut [LagPost])
    requires { AreNewLaggers board.now failing_named 0 0 16 laggers.old }
    ensures { (length laggers.new ≡ 16) × AreLaggers board.now failing_named laggers.new }
{
    thread::for_each_mut(
        rt,
        laggers,
        16,
        &|number: usize, post: &mut LagPost|
            requires { IsNewLagger board.now failing_named 0 0 number post.now }
            ensures { IsLaggerAt board.entry.now failing_named number post.exit.now }
        { follow(rt, board, number, post) },
    );
}

// Leaders go on to the failure, report it, see it and halt, while laggers go on the lag behind, each on a thread of its
// own.
fn run_all<R: Threads + Wait + Sync>(
    rt: &R,
    board: &Board,
    leaders: &mut [LeaderPost],
    laggers: &mut [LagPost],
)
    requires leaders { AreNewLeaders board.now failing_named 0 16 leaders.old }
    requires laggers { AreNewLaggers board.now failing_named 0 0 16 laggers.old }
    ensures leaders { (length leaders.new ≡ 16) × AreLeaders board.now failing_named leaders.new }
    ensures laggers { (length laggers.new ≡ 16) × AreLaggers board.now failing_named laggers.new }
{
    join_mut(
        rt,
        &mut ||
            requires { AreNewLeaders board.now failing_named 0 16 leaders.now }
        { lead_all(rt, board, leaders) },
        &mut ||
            requires { AreNewLaggers board.now failing_named 0 0 16 laggers.now }
        { follow_all(rt, board, laggers) },
    );
}

/// Leaders go on to the failure, report it, see it and halt, while laggers go on the lag behind, each on a thread of its
/// own. Then all posts are brought up to date; the cycle that the fire word tells then.
pub fn run_to_end<R: Threads + Wait + Sync>(
    rt: &R,
    board: &Board,
    leaders: &mut [LeaderPost],
    laggers: &mut [LagPost],
) -> Option<u64>
    requires leaders { AreNewLeaders board.now failing_named 0 16 leaders.old }
    requires laggers { AreNewLaggers board.now failing_named 0 0 16 laggers.old }
    ensures { AreFollowing laggers.new }
{
    run_all(rt, board, leaders, laggers);
    board.catch_up(leaders, laggers)
}

// Whether a lagger has seen each leader at this position, halted.
fn has_seen_halts(post: &LagPost, position: u64) -> bool
    requires { lagger_named post.now ≡ failing_named }
{
    for number in 0..MANY {
        let seen = post.seen(number);
        if seen.position != position || !seen.halted {
            return false;
        }
    }
    true
}

/// Whether each lagger has seen each leader at this position, halted.
pub fn have_seen_halts(laggers: &[LagPost], position: u64) -> bool
    requires { AreFollowing laggers.now }
{
    for number in 0..laggers.len() {
        if !has_seen_halts(&laggers[number], position) {
            return false;
        }
    }
    true
}
