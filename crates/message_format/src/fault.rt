//! Why there are no pieces and no events.

use dt_core::fault::NoMemory;

/// Out of memory, or the format is bad (`BadFormat`, at the format): something stands in it that is no element, or it
/// has another number of arguments.
#[derive(Clone, Copy, Debug, PartialEq, Eq, Drop)]
pub enum FormatFault {
    Memory,
    Bad,
}

impl From<NoMemory> for FormatFault {
    ghost use Rattle.std.specs.Prelude.{◌≡◌};
    ghost use Rattle.message_format.specs.declared.fault.FormatFault.TheVariants as f;

    ghost from_gives = { λ _ fault. fault ≡ f.Memory };

    fn from(_: NoMemory) -> FormatFault {
        FormatFault::Memory
    }
}
