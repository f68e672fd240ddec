//! Rounds of calls on a board, on one thread: a leader and a lagger, of which neither owns an assertion.

ghost use Rattle.std.specs.Prelude.{◌≡◌, ◌+◌, ◌<◌, ◌≤◌, false, length, slice_index_or, IfOk, IsTrue};
ghost use Rattle.token_net.specs.Posts.{none_yet, sight};
ghost use Rattle.gang_board.specs.PostStates.{lagger, LaggerLooks};
ghost use Rattle.gang_board.specs.CatchUp.{IsLaggerAt};
ghost use Rattle.thread_tests.specs.Runs.{idle_named, IsIdle};

use dt_core::fault::NoMemory;
use gang_board::board::Board;
use gang_board::posts::{LagPost, LeaderPost};
use std::alloc::Global;
use std::marker::Brand;

/// The most rounds.
pub const MAX_ROUNDS: u64 = 4_000_000;

// The leader raises its position so many times.
fn raise_all(board: &Board, post: &mut LeaderPost, count: u64)
    requires post { IsIdle board.now 0 post.old }
    requires count { count ≤ MAX_ROUNDS }
    ensures { IsIdle board.now count post.new }
{
    for _ in 0..count {
        board.raise(post);
    }
}

/// A leader raises its position so many times; its position then.
pub fn raises(alloc: Global, count: u64) -> Result<u64, NoMemory>
    requires { count ≤ MAX_ROUNDS }
    ensures { IfOk result (λ at. at ≡ count) }
{
    let (board, mut leaders, _) = Board::new::<Brand>(alloc, 1, 0, 0, 0)?;
    raise_all(&board, &mut leaders[0], count);
    Ok(leaders[0].position())
}

// A leader looks at the fire word so many times; how many looks found none.
fn look_at_fire(board: &Board, post: &mut LeaderPost, count: u64) -> u64
    requires { IsIdle board.now 0 post.old }
{
    let mut none = 0;
    for _ in 0..count {
        if board.see_fire(post).is_none() {
            none += 1;
        }
    }
    none
}

/// A leader looks at the fire word so many times; how many looks found none.
pub fn fire_looks(alloc: Global, count: u64) -> Result<u64, NoMemory> {
    let (board, mut leaders, _) = Board::new::<Brand>(alloc, 1, 0, 0, 0)?;
    Ok(look_at_fire(&board, &mut leaders[0], count))
}

// The lagger looks at the leader: whether that is further than the lagger.
fn is_ahead(board: &Board, post: &mut LagPost) -> bool
    requires { IsLaggerAt board.now idle_named 0 post.old }
    ensures post { IsLaggerAt board.now idle_named 0 post.new }
    ensures at { post.new.position ≡ post.old.position }
    ensures ahead { IsTrue result → post.new.position + 1 ≤ (sight (lagger post.new) 0).at }
{
    let seen = board.see_leader(post, 0);
    post.position() < seen.position
}

// A lagger looks at the leader so many times, and raises its position where the leader is further, if it is to.
fn follow(board: &Board, post: &mut LagPost, count: u64, raises: bool) -> u64
    requires { IsLaggerAt board.now idle_named 0 post.old }
{
    let mut ahead = 0;
    for _ in 0..count {
        if is_ahead(board, post) {
            ahead += 1;
            if raises {
                board.lag_raise(post);
            }
        }
    }
    ahead
}

/// A leader raises its position so many times; then a lagger looks at it as often, and raises its own if it is to. How
/// many looks found the leader further.
pub fn leader_looks(alloc: Global, count: u64, raises: bool) -> Result<u64, NoMemory>
    requires { count ≤ MAX_ROUNDS }
{
    let (board, mut leaders, mut laggers) = Board::new::<Brand>(alloc, 1, 0, 0, 0)?;
    raise_all(&board, &mut leaders[0], count);
    Ok(follow(&board, &mut laggers[0], count, raises))
}
