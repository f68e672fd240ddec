//! The first failure.

use message_text::telling::Fired;
use std::marker::Model;

/// The first failure: its cycle, from 0, and the assertions that fired in it, in order.
#[derive(Drop)]
pub struct Failure {
    pub cycle: u64,
    pub fired: Vec<Fired>,
}

impl Model for Failure {
    ghost use Rattle.window_run.specs.Progress as progress;

    ghost Value = { progress.Failure };

    ghost view = { λ f. record { cycle = f.cycle; fired = f.fired.items } };
}
