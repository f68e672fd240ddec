//! Places in the text of a design.

/// Where a token stands: its number, from 0, and its line, from 1.
#[derive(Clone, Copy, Debug, PartialEq, Eq)]
pub struct Place {
    pub token: u32,
    pub line: u32,
}
