//! What was built so far, without its scopes.

ghost use Rattle.std.specs.Prelude.{◌≡◌, [], false, true};
ghost use Rattle.vl_tree.specs.SyntaxView as view;
ghost use Rattle.vl_design.specs.Walk.{nothing_built};
ghost use Rattle.vl_build.specs.Heard.{HearsBegin, HearsExpand, HearsFaults, HearsEnd, Tells};

use dt_core::place::Place;
use vl_design::limits::{MAX_EXPANDED, MAX_INSTANCES};
use vl_found::{Found, lesser};
use vl_tree::fault::FaultKind;

/// How far a design is built.
#[derive(Clone, Copy, Debug, PartialEq, Eq)]
pub struct Progress {
    /// Where the top's name stands.
    pub top: Place,
    /// Instances so far, at most 4,096.
    pub instances: u32,
    /// Expanded tokens so far, at most 4,194,304.
    pub tokens: u32,
    /// Whether there was too much, so that nothing more is looked at.
    pub ended: bool,
    /// The least fault so far.
    pub fault: Option<Found>,
}

impl Progress {
    /// Nothing is built of a top whose name stands there.
    pub fn new(top: Place) -> Progress
        ensures top { result.top ≡ top }
        ensures tells { Tells result nothing_built }
    {
        Progress {
            top,
            instances: 0,
            tokens: 0,
            ended: false,
            fault: None,
        }
    }

    /// An instance begins, whose name stands there.
    pub fn begin_instance(&mut self, place: Place)
        ensures { HearsBegin self.old self.new (view.place place) }
    {
        if self.ended {
            return;
        }
        if self.instances < MAX_INSTANCES {
            self.instances += 1;
        } else {
            self.end(place, FaultKind::TooManyInstances);
        }
    }

    /// So many expanded tokens, or the most of 32 bits where there are more.
    pub fn expand(&mut self, tokens: u32)
        ensures { HearsExpand self.old self.new tokens }
    {
        if self.ended {
            return;
        }
        let sum = self.tokens.saturating_add(tokens);
        if sum > MAX_EXPANDED {
            self.end(self.top, FaultKind::Expanded);
        } else {
            self.tokens = sum;
        }
    }

    /// The least of some faults, if there is one.
    pub fn fail(&mut self, fault: Option<Found>)
        ensures { HearsFaults self.old self.new fault }
    {
        if self.ended {
            return;
        }
        self.fault = lesser(self.fault, fault);
    }

    // Ends with a fault.
    fn end(&mut self, place: Place, kind: FaultKind)
        ensures { HearsEnd self.old self.new (view.place place) kind }
    {
        self.ended = true;
        self.fault = lesser(self.fault, Some(Found { place, kind }));
    }
}
