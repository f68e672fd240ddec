//! Faults of a text that has no clean text.

ghost use Rattle.std.specs.Prelude.{◌≡◌};
ghost use Rattle.vl_tree.specs.Fault.{on_line};

use vl_tree::fault::{FaultKind, StaticFault};

/// A fault of clean text, which is phase 1, on this line.
pub fn in_text(kind: FaultKind, line: u32) -> StaticFault
    ensures { result ≡ on_line 1 line kind }
{
    StaticFault::on_line(1, line, kind)
}
