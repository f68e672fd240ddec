//! The real outside: std's readers, writers and files, each with a count of faults.

ghost use Rattle.std.specs.Prelude.{◌≡◌, ◌≤◌, ◌<◌, IfOk, None, false, length, take};
ghost use Rattle.std.specs.Io.{ReadsAtMost};
ghost use Rattle.std.specs.Io.KnownBytes.{ReadConsumes};
ghost use Rattle.dt_core.specs.Causes.{HasCause, WriteAppends};
ghost use Rattle.dt_io.specs.Calls.Whole.{ReadsWhole, ReadsFile};
ghost use Rattle.dt_io.specs.Counts.{Counts, LoadCounts};
ghost use Rattle.dt_io.specs.Files.{Loads};

use crate::outside::{Files, LoadFault, Sink, Source};
use dt_core::fault::Failed;
use std::fs::File;
use std::io::{Read, Write};
use std::rt::Files as Host;

/// A reader of std as a source. What is left is known where the reader's is; standard input's is not.
#[derive(Drop)]
pub struct StdSource<R: Read> {
    inner: R,
    faults: u64,
}

impl<R: Read> StdSource<R> {
    /// No call was made.
    pub fn new(inner: R) -> StdSource<R>
        ensures { result ≡ record { inner = inner; faults = 0 } }
    {
        StdSource { inner, faults: 0 }
    }

    /// The count of faults.
    pub fn faults(&self) -> u64
        ensures { result ≡ self.now.faults }
    {
        self.faults
    }
}

impl<R: Read> Source for StdSource<R> {
    ghost left = { λ s. R.remaining s.inner };

    ghost faults = { λ s. s.faults };

    fn read(&mut self, buf: &mut [u8]) -> Result<usize, Failed>
        ensures bound { ReadsAtMost result buf.new }
        ensures bytes { ReadConsumes (R.remaining self.old.inner) (R.remaining self.new.inner) result buf.new }
        ensures cause { HasCause self.old.faults self.new.faults result }
        ensures counts { Counts self.old.faults self.new.faults result }
    {
        match self.inner.read(buf) {
            Ok(count) => Ok(count),
            Err(_) => {
                self.faults = self.faults.saturating_add(1);
                Err(Failed)
            }
        }
    }
}

/// A writer of std as a sink. What it holds is known where the writer's is; that of standard output and error is not.
#[derive(Drop)]
pub struct StdSink<W: Write> {
    inner: W,
    faults: u64,
}

impl<W: Write> StdSink<W> {
    /// No call was made.
    pub fn new(inner: W) -> StdSink<W>
        ensures { result ≡ record { inner = inner; faults = 0 } }
    {
        StdSink { inner, faults: 0 }
    }

    /// The count of faults.
    pub fn faults(&self) -> u64
        ensures { result ≡ self.now.faults }
    {
        self.faults
    }
}

impl<W: Write> Sink for StdSink<W> {
    ghost held = { λ s. W.contents s.inner };

    ghost faults = { λ s. s.faults };

    // A writer that takes nothing of bytes that it is handed has failed.
    fn write(&mut self, piece: &[u8]) -> Result<usize, Failed>
        ensures bytes { WriteAppends (W.contents self.old.inner) (W.contents self.new.inner) result piece.now }
        ensures count { IfOk result (λ n. n ≤ length piece.now) }
        ensures some { IfOk result (λ n. 0 < length piece.now → 0 < n) }
        ensures cause { HasCause self.old.faults self.new.faults result }
        ensures counts { Counts self.old.faults self.new.faults result }
    {
        match self.inner.write(piece) {
            Ok(count) => {
                if count == 0 && !piece.is_empty() {
                    self.faults = self.faults.saturating_add(1);
                    return Err(Failed);
                }
                Ok(count)
            }
            Err(_) => {
                self.faults = self.faults.saturating_add(1);
                Err(Failed)
            }
        }
    }
}

/// Files on the disk, by their names from the working directory. Their contents are not known.
#[derive(Drop)]
pub struct DiskFiles<R: Host + Copy> {
    rt: R,
    faults: u64,
}

impl<R: Host + Copy> DiskFiles<R> {
    /// No call was made.
    pub fn new(rt: R) -> DiskFiles<R>
        ensures { result ≡ record { rt = rt; faults = 0 } }
    {
        DiskFiles { rt, faults: 0 }
    }

    /// The count of faults.
    pub fn faults(&self) -> u64
        ensures { result ≡ self.now.faults }
    {
        self.faults
    }
}

impl<R: Host + Copy> Files for DiskFiles<R> {
    ghost told = { λ _. false };

    ghost reliable = { λ _. false };

    ghost content = { λ _ _. None };

    ghost faults = { λ d. d.faults };

    fn load(&mut self, name: &str, into: &mut Vec<u8>, most: u64) -> Result<(), LoadFault>
        ensures loads { Loads false None most into.old.items into.new.items self.old.faults self.new.faults result }
        ensures later { self.old.faults ≤ self.new.faults }
        ensures counts { LoadCounts false self.old.faults self.new.faults result }
        ensures reads { ReadsFile R.File.remaining most into.old.items into.new.items result }
    {
        let before = into.len();
        let answer = append_file(&self.rt, name, into, most);
        let Err(fault) = answer else {
            return answer;
        };
        into.truncate(before);
        if fault != LoadFault::Memory {
            self.faults = self.faults.saturating_add(1);
        }
        answer
    }
}

// Opens a file and appends it, or a part of it.
fn append_file<R: Host>(rt: &R, name: &str, into: &mut Vec<u8>, most: u64) -> Result<(), LoadFault>
    ensures reads { ReadsFile R.File.remaining most into.old.items into.new.items result }
    ensures front { take (length into.old.items) into.new.items ≡ into.old.items }
{
    match File::open(rt, name) {
        Ok(file) => append_all(&mut StdSource::new(file), into, most),
        Err(_) => Err(LoadFault::Failed),
    }
}

/// Appends all that a source has left to `into`, `most` bytes at the most. `Failed`: a read failed; `TooLong`: more bytes
/// are left; `Memory`: out of memory. After a refusal `into` holds a part of them.
pub fn append_all<S: Source>(source: &mut S, into: &mut Vec<u8>, most: u64) -> Result<(), LoadFault>
    ensures reads { ReadsWhole (S.left source.old) (S.left source.new) (S.faults source.old) (S.faults source.new)
        most into.old.items into.new.items result }
    ensures front { take (length into.old.items) into.new.items ≡ into.old.items }
{
    let mut room = most;
    let mut buf = [0u8; 65_536];
    loop {
        let Ok(count) = source.read(&mut buf) else {
            return Err(LoadFault::Failed);
        };
        if count == 0 {
            return Ok(());
        }
        let Some(rest) = room.checked_sub(count as u64) else {
            return Err(LoadFault::TooLong);
        };
        room = rest;
        if into.extend_from_slice(&buf[..count]).is_err() {
            return Err(LoadFault::Memory);
        }
    }
}
