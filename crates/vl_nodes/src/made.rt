//! Nodes that were made, with their widths.

/// A node that was made, and its width in bits.
#[derive(Clone, Copy, Debug, PartialEq, Eq)]
pub struct Made {
    pub node: u32,
    pub width: u32,
}
