//! How far a writer has come.

/// What was written: nothing, the header, or the header and cycles after it.
#[derive(Clone, Copy, Debug, PartialEq, Eq)]
pub enum Progress {
    Nothing,
    Header,
    Cycles,
}
