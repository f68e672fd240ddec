//! Boards, on one thread and on many.

ghost use Rattle.std.specs.Prelude.{◌≡◌, ◌+◌, ◌<◌, [], false, slice_index_or};
ghost use Rattle.named_run.specs.Named.{end_of};
ghost use Rattle.token_net.specs.Posts.{none_yet};
ghost use Rattle.gang_board.specs.PostStates.{leader, leader_named, IsLeaderOf};
ghost use Rattle.thread_tests.specs.Runs.{one_fires};

use crate::leaders_and_laggers::{FAILURE, LAG, have_seen_halts, run_to_end};
use gang_board::board::Board;
use gang_board::posts::LeaderPost;
use std::marker::Brand;
use std::test::*;

// Raises a leader that owns no assertion.
fn raise_quietly(board: &Board, post: &mut LeaderPost)
    requires board { IsLeaderOf board.now post.old }
    requires owns { slice_index_or (leader_named post.old).run.owned post.old.number [] ≡ [] }
    requires below { post.old.position < end_of (leader_named post.old).run }
    requires runs { (post.old.halted ≡ false) × (post.old.seen ≡ none_yet) }
    ensures board { IsLeaderOf board.now post.new }
    ensures same { (leader_named post.new ≡ leader_named post.old) × (post.new.number ≡ post.old.number) }
    ensures post { leader post.new ≡ record (leader post.old) { at = post.old.position + 1 } }
{
    board.raise(post);
}

// A lagger sees a leader where it has come.
#[test]
fn two_raises_are_seen(rt: HostRuntime) -> Result<(), Fail> {
    let (board, mut leaders, mut laggers) = Board::new::<Brand>(rt.alloc(), 1, 0, 0, 0)?;
    raise_quietly(&board, &mut leaders[0]);
    raise_quietly(&board, &mut leaders[0]);
    let seen = board.see_leader(&mut laggers[0], 0);
    assert_eq!(rt; seen.position, 2);
    assert!(rt; !seen.halted);
    Ok(())
}

// Halts a leader that stands at the end of the rows.
fn halt_at_end(board: &Board, post: &mut LeaderPost)
    requires board { IsLeaderOf board.now post.old }
    requires end { post.old.position ≡ end_of (leader_named post.old).run }
    requires going { post.old.halted ≡ false }
{
    board.halt(post);
}

// A board begins one row before the end: a leader goes to the end and halts there, and a lagger sees both.
#[test]
fn a_leader_halts_at_the_end(rt: HostRuntime) -> Result<(), Fail> {
    let (board, mut leaders, mut laggers) = Board::new::<Brand>(rt.alloc(), 1, 0, 8, 8)?;
    raise_quietly(&board, &mut leaders[0]);
    halt_at_end(&board, &mut leaders[0]);
    let seen = board.see_leader(&mut laggers[0], 0);
    assert_eq!(rt; seen.position, 9);
    assert!(rt; seen.halted);
    Ok(())
}

// The first leader reports that its assertion fires in cycle 0.
fn report_first(board: &Board, post: &mut LeaderPost)
    requires board { IsLeaderOf board.now post.old }
    requires leader { ((leader_named post.old).run ≡ one_fires) × (post.old.number ≡ 0) × (post.old.position ≡ 0) }
    requires going { (post.old.halted ≡ false) × (post.old.reported ≡ false) }
{
    board.report_fire(post, 0);
}

// Halts a leader that sees a fire at a cycle below its position; whether it does.
fn halt_after_fire(board: &Board, post: &mut LeaderPost) -> bool
    requires board { IsLeaderOf board.now post.old }
    requires going { post.old.halted ≡ false }
{
    match board.see_fire(post) {
        Some(cycle) if cycle < post.position() => {
            board.halt(post);
            true
        }
        _ => false,
    }
}

// A leader that has gone past the cycle in which another's assertion fires sees that, and halts.
#[test]
fn a_leader_halts_after_a_fire(rt: HostRuntime) -> Result<(), Fail> {
    let (board, mut leaders, _) = Board::new::<Brand>(rt.alloc(), 2, 0, 0, 0)?;
    raise_quietly(&board, &mut leaders[1]);
    report_first(&board, &mut leaders[0]);
    assert!(rt; halt_after_fire(&board, &mut leaders[1]));
    assert!(rt; leaders[1].is_halted());
    Ok(())
}

// Sixteen leaders go on to the failure, report it, see it and halt, while sixteen laggers stay the lag behind. Then all
// posts are brought up to date: each lagger has seen each leader halted there.
#[test]
fn sixteen_leaders_and_laggers(rt: HostRuntime) -> Result<(), Fail> {
    let (board, mut leaders, mut laggers) = Board::new::<Brand>(rt.alloc(), 16, 8, 0, 0)?;
    let fire = run_to_end(&rt, &board, &mut leaders, &mut laggers);
    assert_eq!(rt; fire, Some(FAILURE));
    assert!(rt; have_seen_halts(&laggers, FAILURE));
    for post in &leaders {
        assert_eq!(rt; post.position(), FAILURE);
        assert!(rt; post.has_reported());
        assert_eq!(rt; post.seen_fire(), Some(FAILURE));
        assert!(rt; post.is_halted());
    }
    for post in &laggers {
        assert_eq!(rt; post.position(), FAILURE - LAG);
    }
    Ok(())
}
