//! Driven parts of drafts, by what they read.

use draft_maker::DraftMaker;
use netlist::design::Range;
use netlist::node::Operation;
use std::alloc::AllocError;

/// One more driven part, which reads these ranges.
pub fn add_part(maker: &mut DraftMaker, range: Range, reads: &[Range]) -> Result<(), AllocError> {
    let mut node = maker.constant(range.width, 0)?;
    for read in reads {
        let also = maker.bits(*read)?;
        node = maker.node(range.width, Operation::Keep { of: node, also })?;
    }
    maker.drive(range, node)
}
