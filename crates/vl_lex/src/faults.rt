//! Faults of a text that has no tokens, and why no token stands at a place.

ghost use Rattle.std.specs.Prelude.{◌≡◌};
ghost use Rattle.vl_lex.specs.Calls.Reading.{fault_on};
ghost use Rattle.vl_tree.specs.Fault.{on_line};

use vl_tree::fault::{FaultKind, StaticFault};

/// Why no token stands at a place.
#[derive(Clone, Copy, Debug, PartialEq, Eq)]
pub enum Wrong {
    /// The text is wrong there.
    Bad(FaultKind),
    /// Out of memory.
    Memory,
}

impl From<FaultKind> for Wrong {
    ghost use Rattle.std.specs.Prelude.{◌≡◌};
    ghost use Rattle.vl_lex.specs.declared.faults.Wrong.TheVariants.{Bad};

    ghost from_gives = { λ kind wrong. wrong ≡ Bad kind };

    fn from(kind: FaultKind) -> Wrong {
        Wrong::Bad(kind)
    }
}

impl Wrong {
    /// The same as the fault of a text.
    pub fn on_line(self, line: u32) -> StaticFault
        ensures { result ≡ fault_on self line }
    {
        match self {
            Wrong::Bad(kind) => in_tokens(kind, line),
            Wrong::Memory => StaticFault::Memory,
        }
    }
}

/// A fault of tokens, which is phase 2, on this line.
pub fn in_tokens(kind: FaultKind, line: u32) -> StaticFault
    ensures { result ≡ on_line 2 line kind }
{
    StaticFault::on_line(2, line, kind)
}
