//! The next line of a source.

ghost use Rattle.std.specs.Prelude.{◌≡◌, ◌+◌, ◌≤◌, ◌++◌, [], List, ℕ, length, drop, take};
ghost use Rattle.std.specs.Io.KnownBytes.{Consumes};
ghost use Rattle.dt_core.specs.Causes.{HasCause};
ghost use Rattle.stimulus.specs.Calls.Turns.{Finds, IsInTime};

use crate::buffer::Buffer;
use crate::refusal::MAX_LINE;
use dt_core::fault::Failed;
use dt_io::outside::Source;
use memchr::memchr;

/// What stands at the head of the bytes held.
#[derive(Clone, Copy)]
pub(crate) enum Line {
    /// A line of so many bytes and its LF.
    Ended(usize),
    /// More bytes than a line may have, and no LF.
    Long,
    /// The last bytes of the source, with no LF.
    Last,
}

/// Takes bytes from the source until a line is held, or more than a line may have, or all.
pub(crate) fn next_line<S: Source>(buffer: &mut Buffer, source: &mut S) -> Result<Line, Failed>
    ensures taken { (more : List ℕ) × Consumes (S.left source.old) (S.left source.new) more
        × (buffer.new.bytes ≡ buffer.old.bytes ++ more) }
    ensures finds { Finds buffer.new.bytes (S.left source.new) result }
    ensures time { IsInTime buffer.old buffer.new }
    ensures cause { HasCause (S.faults source.old) (S.faults source.new) result }
{
    let mut searched = 0;
    'turns: loop {
        match memchr(b'\n', &buffer.held()[searched..]) {
            Some(place) => return Ok(Line::Ended(searched + place)),
            None => {}
        }
        searched = buffer.held().len();
        if searched > MAX_LINE {
            return Ok(Line::Long);
        }
        match buffer.fill(source) {
            Ok(true) => {}
            Ok(false) => return Ok(Line::Last),
            Err(fault) => return Err(fault),
        }
    }
}
