//! The text of a format up to its first item.

ghost use Rattle.std.specs.Prelude.{IfOk};
ghost use Rattle.one_block.specs.Calls.Front.{IsFront};

use dt_core::append::push;
use dt_core::fault::NoMemory;
use flat_ir::format::{Progress, Step, next_step};
use std::alloc::Global;

/// The text of a format up to its first item, and the place behind that item, if it has one.
#[derive(Drop)]
pub(crate) struct Front {
    pub(crate) text: Vec<u8>,
    pub(crate) end: Option<usize>,
}

/// The front of a format.
pub(crate) fn front_of(alloc: Global, format: &[u8]) -> Result<Front, NoMemory>
    ensures { IfOk result (λ f. IsFront format.now f.text.items f.end) }
{
    let mut text = Vec::new(alloc);
    let mut progress = Progress::Outside;
    for (place, byte) in format.iter().enumerate() {
        match next_step(progress, *byte) {
            Step::Itself => {
                push(&mut text, &[*byte])?;
                progress = Progress::Outside;
            }
            Step::Into(next) => progress = next,
            Step::Shows => {
                return Ok(Front {
                    text,
                    end: Some(place + 1),
                });
            }
            Step::Wrong => progress = Progress::Outside,
        }
    }
    Ok(Front { text, end: None })
}
