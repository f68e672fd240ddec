//! The rule of the board's table, and the names of its steps.

ghost use Rattle.board_rule.specs.Rule.{Ruled};
ghost use Rattle.board_rule.specs.Plays.{all_posts, raises, halts, reports, sees_fire, sees_leader, lag_raises, names};
ghost use Rattle.board_rule.specs.Plays.{both, no_posts, without_leader, leader_alone, without_lagger, lagger_alone};
ghost use Rattle.board_rule.specs.Views.{no_name};

use crate::setup::Setup;
use crate::view::View;
use atomic_table::{Join, Play, Split, TableRule};
use named_run::run::RunName;
use std::marker::PhantomData;

/// The rule of the board.
pub struct Rule;

impl TableRule<u8, View, Setup> for Rule {
    ghost holds = { λ _. Ruled };

    ghost first = { all_posts };
}

/// A leader is one cycle further.
pub struct Raises;

impl Play<u8, View> for Raises {
    ghost then = { raises };
}

/// A leader is halted.
pub struct Halts;

impl Play<u8, View> for Halts {
    ghost then = { halts };
}

/// A leader has reported.
pub struct Reports;

impl Play<u8, View> for Reports {
    ghost then = { reports };
}

/// A leader has seen the fire word.
pub struct SeesFire;

impl Play<u8, View> for SeesFire {
    ghost then = { sees_fire };
}

/// A lagger has seen a leader.
pub struct SeesLeader;

impl Play<u8, View> for SeesLeader {
    ghost then = { sees_leader };
}

/// A lagger is one cycle further.
pub struct LagRaises;

impl Play<u8, View> for LagRaises {
    ghost then = { lag_raises };
}

/// The run is named.
pub struct Names<N> {
    of: PhantomData<N>,
}

impl<N: RunName> Play<u8, View> for Names<N> {
    ghost then = { names N.run };
}

/// The first leader's post gets a seat of its own.
pub struct FirstLeader;

impl Split<View> for FirstLeader {
    ghost left = { without_leader };

    ghost right = { leader_alone };
}

/// The first lagger's post gets a seat of its own.
pub struct FirstLagger;

impl Split<View> for FirstLagger {
    ghost left = { without_lagger };

    ghost right = { lagger_alone };
}

/// A seat without a post is split off.
pub struct EmptySeat;

impl Split<View> for EmptySeat {
    ghost left = { λ v. v };

    ghost right = { λ v. no_posts v.named };
}

/// Two seats' posts at one seat.
pub struct Together;

impl Join<View> for Together {
    ghost both = { both };

    ghost spent = { no_posts no_name };
}
