//! Which of several static faults is told: the least, by token and then by the order of the kinds.
//!
//! Below: `vl_value` (the order of faults), `vl_tree` (kinds). Above: each phase that reads trees.
//! Promise: `lesser` is the lesser of two faults as `vl_value` orders them, of two that stand alike the first; `of_phase`
//! is the fault that is reported.
#![tactic(auto)]

ghost use Rattle.std.specs.Prelude.{◌≡◌, Some};
ghost use Rattle.std.specs.Option.{option_map};
ghost use Rattle.vl_tree.specs.Fault.{fault_of};
ghost use Rattle.vl_value.specs.Order as order;
ghost use Rattle.vl_found.specs.View.{found, earlier};

use dt_core::place::Place;
use vl_tree::fault::{FaultKind, FaultPlace, StaticFault};

/// A fault: the place of its token, and its kind.
#[derive(Clone, Copy, Debug, PartialEq, Eq)]
pub struct Found {
    pub place: Place,
    pub kind: FaultKind,
}

/// The lesser of two faults, of which either may be none; the first of two that stand alike.
pub fn lesser(first: Option<Found>, second: Option<Found>) -> Option<Found>
    ensures { option_map found result ≡ order.lesser (option_map found first) (option_map found second) }
{
    match (first, second) {
        (None, _) => second,
        (Some(_), None) => first,
        (Some(a), Some(b)) => Some(first_of(a, b)),
    }
}

/// The lesser of two faults; the first of two that stand alike.
pub fn first_of(a: Found, b: Found) -> Found
    ensures { result ≡ earlier a b }
{
    if is_before(b, a) { b } else { a }
}

// Whether a fault comes before another of its phase.
fn is_before(a: Found, b: Found) -> bool
    ensures { result ≡ order.is_before (found a) (found b) }
{
    if a.place.token == b.place.token {
        rank(a.kind) < rank(b.kind)
    } else {
        a.place.token < b.place.token
    }
}

// The place of a kind in the one order of the kinds of all phases.
fn rank(kind: FaultKind) -> u32
    ensures { result ≡ order.rank kind }
{
    match kind {
        FaultKind::BadDirective
        | FaultKind::Unbalanced
        | FaultKind::UnknownMacro
        | FaultKind::MacroDepth
        | FaultKind::TooLong
        | FaultKind::BadByte
        | FaultKind::OpenComment
        | FaultKind::BadToken
        | FaultKind::BadNumber
        | FaultKind::OpenString
        | FaultKind::TooManyTokens
        | FaultKind::Syntax
        | FaultKind::Deep
        | FaultKind::DuplicateModule => 0,
        FaultKind::NoTop => 1,
        FaultKind::UnknownModule => 2,
        FaultKind::UnknownParameter => 3,
        FaultKind::TooDeep => 4,
        FaultKind::TooManyInstances => 5,
        FaultKind::TooManyTurns => 6,
        FaultKind::Misplaced => 7,
        FaultKind::UnknownName => 8,
        FaultKind::NotConstant => 9,
        FaultKind::Duplicate => 10,
        FaultKind::BadRange => 11,
        FaultKind::BadSelect => 12,
        FaultKind::TooWide => 13,
        FaultKind::BadPort => 14,
        FaultKind::UnknownPort => 15,
        FaultKind::TooManySignals => 16,
        FaultKind::TooManyWords => 17,
        FaultKind::TooManyInputs => 18,
        FaultKind::ZeroReplication => 19,
        FaultKind::BadCall => 20,
        FaultKind::BadTarget => 21,
        FaultKind::BadFormat => 22,
        FaultKind::AsyncControl => 23,
        FaultKind::NegativeEdge => 24,
        FaultKind::WrongAssign => 25,
        FaultKind::LoopVariable => 26,
        FaultKind::Latch => 27,
        FaultKind::Recursive => 28,
        FaultKind::FunctionScope => 29,
        FaultKind::BadInitial => 30,
        FaultKind::TaskPlace => 31,
        FaultKind::Unrolled => 32,
        FaultKind::Expanded => 33,
        FaultKind::ManyDrivers => 34,
        FaultKind::MixedKinds => 35,
        FaultKind::BadClock => 36,
        FaultKind::SecondClock => 37,
        FaultKind::ClockAsData => 38,
        FaultKind::Loop => 39,
    }
}

impl Found {
    /// The fault as one of a phase.
    pub fn of_phase(self, phase: u8) -> StaticFault
        ensures { fault_of result ≡ Some (order.of_phase phase (found self)) }
    {
        StaticFault::At {
            phase,
            place: FaultPlace {
                line: self.place.line,
                token: Some(self.place.token),
            },
            kind: self.kind,
        }
    }
}
