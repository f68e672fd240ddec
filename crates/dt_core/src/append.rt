//! Appending to a text that is being written.

ghost use Rattle.std.specs.Prelude.{◌≡◌, ◌++◌, OnOk, decimal};

use crate::fault::NoMemory;
use itoa::Buffer;

/// Appends a piece. After a refusal a part of it may have been appended.
pub fn push(text: &mut Vec<u8>, piece: &[u8]) -> Result<(), NoMemory>
    ensures { OnOk result (text.new.items ≡ text.old.items ++ piece.now) }
{
    match text.extend_from_slice(piece) {
        Ok(()) => Ok(()),
        Err(_) => Err(NoMemory),
    }
}

/// Appends the decimal digits of a number. After a refusal a part of them may have been appended.
pub fn push_number(text: &mut Vec<u8>, number: u128) -> Result<(), NoMemory>
    ensures { OnOk result (text.new.items ≡ text.old.items ++ decimal number) }
{
    push(text, Buffer::new().format(number).as_bytes())
}
