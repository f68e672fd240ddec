//! Cutting a format into its pieces.

ghost use Rattle.std.specs.Prelude.{◌≡◌, false, Some, None, Err, IfOk};
ghost use Rattle.message_format.specs.Formatted.{elements};
ghost use Rattle.message_format.specs.Pieces.{AreWhole, elements_of};
ghost use Rattle.message_format.specs.declared.fault.FormatFault.TheVariants as fault;

use crate::element::{Progress, Step, next_step};
use crate::fault::FormatFault;
use crate::piece::{Draft, Piece};
use std::alloc::Global;

/// The pieces of a format; Bad exactly where it isn't spelled of elements, want of memory aside. Texts are whole: none
/// is empty, and none follows another.
pub fn split(alloc: Global, format: &[u8]) -> Result<Vec<Piece>, FormatFault>
    ensures pieces { IfOk result (λ ps. elements format.now ≡ Some (elements_of ps.items)) }
    ensures whole { IfOk result (λ ps. AreWhole false ps.items) }
    ensures bad { result ≡ Err fault.Bad → elements format.now ≡ None }
{
    let mut draft = Draft::new(alloc);
    let mut progress = Progress::Outside;
    for byte in format {
        match next_step(progress, *byte) {
            Step::Into(next) => progress = next,
            Step::Ends(element) => {
                draft.add(alloc, element)?;
                progress = Progress::Outside;
            }
            Step::Wrong => return Err(FormatFault::Bad),
        }
    }
    match progress {
        Progress::Outside => Ok(draft.finish(alloc)?),
        Progress::Percent | Progress::Zero => Err(FormatFault::Bad),
    }
}
