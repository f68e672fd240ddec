//! A count with a limit.

ghost use Rattle.std.specs.Prelude.{◌≡◌, ◌∷◌, []};
ghost use Rattle.std.specs.Option.{option_map};
ghost use Rattle.vl_tree.specs.SyntaxView as view;
ghost use Rattle.vl_value.specs.Order.{least};
ghost use Rattle.vl_found.specs.View.{found};
ghost use Rattle.vl_design.specs.ObjectFaults.{told};
ghost use Rattle.vl_limits.specs.Counting.{Adds, Begins, further};

use dt_core::place::Place;
use vl_found::Found;
use vl_tree::fault::FaultKind;

/// How much may still be added, and where the first thing stands that was too much.
#[derive(Clone, Copy, Debug, PartialEq, Eq)]
pub struct Limit {
    left: u64,
    passed: Option<Place>,
}

impl Limit {
    /// Nothing was added yet.
    pub fn new(most: u32) -> Limit
        ensures { Begins most result }
    {
        Limit {
            left: u64::from(most),
            passed: None,
        }
    }

    /// Adds a count of things of a name that stands at a place.
    pub fn add(&mut self, count: u64, place: Place)
        ensures { Adds ((view.place place, count) ∷ []) self.old self.new }
    {
        if self.passed.is_some() {
            return;
        }
        match self.left.checked_sub(count) {
            Some(left) => self.left = left,
            None => self.passed = Some(place),
        }
    }

    /// The fault of the first thing that was too much.
    pub fn fault(self, kind: FaultKind) -> Option<Found>
        ensures { option_map found result ≡ least (told (further self []) kind) }
    {
        let place = self.passed?;
        Some(Found { place, kind })
    }
}
