//! What is reported: a variant for each case.

use dt_core::text::Text;

/// An assertion that fired: the path of the scope in which its block stands, whether it is `$fatal`, its file and
/// its line, from 1, and its message.
#[derive(Debug, Drop)]
pub struct StopLine {
    pub path: Text,
    pub fatal: bool,
    pub file: Text,
    pub line: u32,
    pub message: Text,
}

/// A driven part of a signal that lies on a loop: the signal's path, the part's lowest place, and its width in bits.
#[derive(Debug, Drop)]
pub struct LoopLine {
    pub path: Text,
    pub place: u32,
    pub width: u32,
}

/// What a call has to report.
#[derive(Debug, Drop)]
pub enum Answer {
    /// The first failure, in a cycle: the assertions that fired in it, in order, and the first cycle of the window.
    Failure {
        cycle: u64,
        stops: Vec<StopLine>,
        first: u64,
    },
    /// No assertion fired in so many cycles.
    NoFailure {
        cycles: u64,
    },
    /// No assertion fired from the first of these cycles to the last.
    NoFailureIn {
        first: u64,
        last: u64,
    },
    /// The word of this number, from 1, is bad.
    Usage {
        number: u32,
    },
    /// The design has a fault of this kind at a line of a file; the parts are those of a loop, else there are none.
    Design {
        file: Text,
        line: u32,
        kind: Text,
        parts: Vec<LoopLine>,
    },
    /// The design has no fault of the phases that are built, and isn't built further; it has no place.
    NotYetBuilt,
    /// The stimulus is refused at a line, for this kind of fault.
    Stimulus {
        line: u64,
        kind: Text,
    },
    /// The image is refused at a line, for this kind of fault.
    Image {
        line: u64,
        kind: Text,
    },
    /// The file of this name could not be loaded.
    FileFailed {
        name: Text,
    },
    /// The file of this name is longer than a file may be.
    FileTooLong {
        name: Text,
    },
    /// Reading the input failed.
    InputFailed,
    /// Writing the output failed.
    OutputFailed,
}
