//! The traits of the outside, each with a count of faults that never falls, and that stays where a call succeeds.

ghost use Rattle.std.specs.Prelude.{◌≡◌, ◌≤◌, ◌<◌, List, ℕ, Bool, IfOk, OnOk, length};
ghost use Rattle.std.specs.declared.option.Option.{Option};
ghost use Rattle.std.specs.Io.{ReadsAtMost};
ghost use Rattle.std.specs.Io.KnownBytes.{ReadConsumes, Appends};
ghost use Rattle.dt_core.specs.Causes.{HasCause, WriteAppends, AppendsPart};
ghost use Rattle.dt_io.specs.Files.{Loads, FailsForNone};

use dt_core::fault::Failed;

/// Bytes that are read once, from the first on.
pub trait Source {
    // What is left, where that is known.
    ghost left: { Self → Option (List ℕ) };

    ghost faults: { Self → ℕ };

    /// Moves the first bytes of what is left to the front of the buffer, and says how many.
    /// No byte comes only where nothing is left or the buffer is empty.
    fn read(&mut self, buf: &mut [u8]) -> Result<usize, Failed>
        ensures bound { ReadsAtMost result buf.new }
        ensures bytes { ReadConsumes (left self.old) (left self.new) result buf.new }
        ensures cause { HasCause (faults self.old) (faults self.new) result };
}

/// Bytes that are written one after another.
pub trait Sink {
    // What it holds, where that is known.
    ghost held: { Self → Option (List ℕ) };

    ghost faults: { Self → ℕ };

    /// Appends the first bytes of the piece, one at least where it has one, and says how many.
    fn write(&mut self, piece: &[u8]) -> Result<usize, Failed>
        ensures bytes { WriteAppends (held self.old) (held self.new) result piece.now }
        ensures count { IfOk result (λ n. n ≤ length piece.now) }
        ensures some { IfOk result (λ n. 0 < length piece.now → 0 < n) }
        ensures cause { HasCause (faults self.old) (faults self.new) result };
}

/// Why a file was not loaded.
#[derive(Clone, Copy, PartialEq, Eq, Debug, Drop)]
pub enum LoadFault {
    /// The file is not there, or a call to the outside failed.
    Failed,
    /// The file has more bytes than the limit.
    TooLong,
    /// Out of memory.
    Memory,
}

/// Files by their names.
pub trait Files {
    // Whether their contents are known.
    ghost told: { Self → Bool };

    // Whether every file that is there can be read, so that a failure is the fault of the name.
    ghost reliable: { Self → Bool };

    // What the file of a name holds, if there is one.
    ghost content: { Self → List ℕ → Option (List ℕ) };

    ghost faults: { Self → ℕ };

    /// Appends the whole file, of at most `most` bytes. After a refusal the vector is as before.
    fn load(&mut self, name: &str, into: &mut Vec<u8>, most: u64) -> Result<(), LoadFault>
        ensures loads { Loads (told self.old) (content self.old name.now) most into.old.items into.new.items
            (faults self.old) (faults self.new) result }
        ensures blame { FailsForNone (reliable self.old) (content self.old name.now) result }
        ensures kept { content self.new ≡ content self.old }
        ensures told { told self.new ≡ told self.old }
        ensures reliable { reliable self.new ≡ reliable self.old }
        ensures later { faults self.old ≤ faults self.new };
}

/// Appends all of the bytes, or a front of them and an error. It takes no memory.
pub fn write_all<K: Sink>(sink: &mut K, bytes: &[u8]) -> Result<(), Failed>
    ensures whole { OnOk result (Appends (K.held sink.old) (K.held sink.new) bytes.now) }
    ensures part { AppendsPart (K.held sink.old) (K.held sink.new) bytes.now }
    ensures cause { HasCause (K.faults sink.old) (K.faults sink.new) result }
{
    let mut rest = bytes;
    while !rest.is_empty() {
        let count = sink.write(rest)?;
        let (_, after) = rest.split_at(count);
        rest = after;
    }
    Ok(())
}
