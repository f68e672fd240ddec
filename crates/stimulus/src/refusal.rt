//! The data inputs of a stimulus, and why a stimulus is refused.

ghost use Rattle.std.specs.Prelude.{◌≡◌};
ghost use Rattle.stimulus.specs.Refusals.{name_of};

use dt_core::text::Text;

/// Bytes of a line before its LF.
pub const MAX_LINE: usize = 524_288;

/// A data input of the top module: its name and its width of 1 to `MAX_WIDTH` bits.
#[derive(Debug, Drop)]
pub struct Input {
    pub name: Text,
    pub width: u32,
}

/// Why a stimulus is refused, in the order in which the faults of one line count.
#[derive(Clone, Copy, Debug, PartialEq, Eq, Drop)]
pub enum RefusalKind {
    /// More than `MAX_LINE` bytes come without an LF.
    LineTooLong,
    /// The input ends in a line without LF, or before line 1 or 2.
    Truncated,
    /// Line 1 isn't `stimulus 1`, or line 2 isn't `inputs` with nonempty names after single spaces.
    BadHeader,
    /// The leftmost bad name of line 2 is no data input.
    UnknownInput,
    /// The leftmost bad name of line 2 stood before.
    RepeatedInput,
    /// Line 2 lacks a data input.
    MissingInput,
    /// There are `MAX_ROWS` rows before this one.
    TooManyRows,
    /// The number of a row's values isn't the number of names.
    WrongCount,
    /// The leftmost bad value of a row isn't one or more hexadecimal digits.
    BadValue,
    /// The leftmost bad value of a row is 2^width or more.
    TooLarge,
}

impl RefusalKind {
    /// The name of the kind, as a report has it.
    pub fn name(self) -> &'static str
        ensures { result.now ≡ name_of self }
    {
        match self {
            RefusalKind::LineTooLong => "LineTooLong",
            RefusalKind::Truncated => "Truncated",
            RefusalKind::BadHeader => "BadHeader",
            RefusalKind::UnknownInput => "UnknownInput",
            RefusalKind::RepeatedInput => "RepeatedInput",
            RefusalKind::MissingInput => "MissingInput",
            RefusalKind::TooManyRows => "TooManyRows",
            RefusalKind::WrongCount => "WrongCount",
            RefusalKind::BadValue => "BadValue",
            RefusalKind::TooLarge => "TooLarge",
        }
    }
}

/// A refusal, and its line counted from 1.
#[derive(Clone, Copy, Debug, PartialEq, Eq, Drop)]
pub struct Refusal {
    pub kind: RefusalKind,
    pub line: u64,
}

/// Why no row was given.
#[derive(Clone, Copy, Debug, PartialEq, Eq, Drop)]
pub enum StimFault {
    /// The text is no stimulus.
    Refused(Refusal),
    /// The source failed.
    Read,
    /// Out of memory.
    Memory,
}
