//! Sources, sinks and files in memory, which fail exactly in the calls that a list names.

ghost use Rattle.std.specs.Prelude.{◌≡◌, ◌≤◌, ◌<◌, ◌+◌, ◌-◌, [], Some, None, true, IfOk, Err, length, drop, take, min, ◌⊎◌};
ghost use Rattle.std.specs.Prelude.{◌++◌, MatchOption, ◌≢◌, ◌↔◌};
ghost use Rattle.std.specs.Io.{ReadsAtMost};
ghost use Rattle.std.specs.Io.KnownBytes.{ReadConsumes};
ghost use Rattle.dt_core.specs.Causes.{HasCause, WriteAppends, IsNamed, FailsAsNamed, FailsAsNamedOr};
ghost use Rattle.dt_io.specs.Counts.{Counts, LoadCounts, one_more};
ghost use Rattle.dt_io.specs.Files.{Loads, FailsForNone};
ghost use Rattle.dt_io.specs.Memory.{Given, Held, Stored, content_of, names_none};

use crate::calls::Calls;
use crate::outside::{Files, LoadFault, Sink, Source};
use dt_core::fault::{Failed, NoMemory};
use dt_core::text::Text;
use std::alloc::Global;
use std::marker::Model;

/// Bytes in memory, read in pieces.
#[derive(Drop)]
pub struct MemSource {
    bytes: Vec<u8>,
    at: usize,
    piece: u32,
    calls: Calls,
}

impl Model for MemSource {
    ghost Value = { Given };

    ghost view = { λ m. record {
      left = drop m.at m.bytes.items;
      piece = m.piece;
      fails = m.calls.fails.items;
      calls = m.calls.made;
      faults = m.calls.faults;
    } };

    ghost invariant = { λ m. (1 ≤ m.piece) × (m.at ≤ length m.bytes.items) };
}

impl MemSource {
    /// All of the bytes are left, and no call was made. A call gives at most `piece` bytes; the calls in `fails`, counted from 1,
    /// fail.
    pub fn new(bytes: Vec<u8>, piece: u32, fails: Vec<u32>) -> MemSource
        requires { 1 ≤ piece }
        ensures { result ≡ record { left = bytes.items; piece = piece; fails = fails.items; calls = 0; faults = 0 } }
    {
        MemSource {
            bytes,
            at: 0,
            piece,
            calls: Calls::new(fails),
        }
    }

    /// The count of faults.
    pub fn faults(&self) -> u64
        ensures { result ≡ self.now.faults }
    {
        self.calls.faults
    }
}

impl Source for MemSource {
    ghost left = { λ m. Some m.left };

    ghost faults = { λ m. m.faults };

    fn read(&mut self, buf: &mut [u8]) -> Result<usize, Failed>
        ensures bound { ReadsAtMost result buf.new }
        ensures bytes { ReadConsumes (Some self.old.left) (Some self.new.left) result buf.new }
        ensures cause { HasCause self.old.faults self.new.faults result }
        ensures named { FailsAsNamed self.old.fails self.old.calls result }
        ensures size { IfOk result (λ n. n ≡ min (min (length self.old.left) (length buf.old)) self.old.piece) }
        ensures counts { (self.new.calls ≡ one_more self.old.calls) × Counts self.old.faults self.new.faults result }
        ensures kept { (self.new.fails ≡ self.old.fails) × (self.new.piece ≡ self.old.piece) }
    {
        self.calls.begin()?;
        let count = copy_front(&self.bytes[self.at..], self.piece as usize, buf);
        self.at += count;
        Ok(count)
    }
}

// Copies bytes to the front of a buffer, as many as fit and at most this many.
fn copy_front(bytes: &[u8], most: usize, buf: &mut [u8]) -> usize
    ensures bytes { take result buf.new ≡ take result bytes.now }
    ensures size { result ≡ min (min (length bytes.now) (length buf.old)) most }
{
    let count = bytes.len().min(buf.len()).min(most);
    buf[..count].copy_from_slice(&bytes[..count]);
    count
}

/// Bytes in memory, written in pieces.
#[derive(Drop)]
pub struct MemSink {
    buffer: Vec<u8>,
    len: usize,
    piece: u32,
    calls: Calls,
}

impl Model for MemSink {
    ghost Value = { Held };

    ghost view = { λ m. record {
      held = take m.len m.buffer.items;
      room = length m.buffer.items;
      piece = m.piece;
      fails = m.calls.fails.items;
      calls = m.calls.made;
      faults = m.calls.faults;
    } };

    ghost invariant = { λ m. (1 ≤ m.piece) × (m.len ≤ length m.buffer.items) };
}

impl MemSink {
    /// Nothing is held, no call was made, and there is memory for `room` bytes. A call appends at most `piece` bytes; the calls in
    /// `fails`, counted from 1, fail, and so does one with bytes where the room is full.
    pub fn new(alloc: Global, room: u64, piece: u32, fails: Vec<u32>) -> Result<MemSink, NoMemory>
        requires { 1 ≤ piece }
        ensures { IfOk result (λ m. m ≡ record {
          held = [];
          room = room;
          piece = piece;
          fails = fails.items;
          calls = 0;
          faults = 0;
        }) }
    {
        let buffer = vec![in alloc; 0u8; room as usize]?;
        Ok(MemSink {
            buffer,
            len: 0,
            piece,
            calls: Calls::new(fails),
        })
    }

    /// What it holds.
    pub fn bytes(&self) -> &[u8]
        ensures value { result.now ≡ self.now.held }
        ensures within { length self.now.held ≤ self.now.room }
    {
        &self.buffer[..self.len]
    }

    /// The count of faults.
    pub fn faults(&self) -> u64
        ensures { result ≡ self.now.faults }
    {
        self.calls.faults
    }
}

impl Sink for MemSink {
    ghost held = { λ m. Some m.held };

    ghost faults = { λ m. m.faults };

    fn write(&mut self, piece: &[u8]) -> Result<usize, Failed>
        ensures bytes { WriteAppends (Some self.old.held) (Some self.new.held) result piece.now }
        ensures count { IfOk result (λ n. n ≤ length piece.now) }
        ensures some { IfOk result (λ n. 0 < length piece.now → 0 < n) }
        ensures cause { HasCause self.old.faults self.new.faults result }
        ensures named { FailsAsNamedOr ((0 < length piece.now) × (length self.old.held ≡ self.old.room))
            self.old.fails self.old.calls result }
        ensures size { IfOk result (λ n.
            n ≡ min (min (length piece.now) (self.old.room - length self.old.held)) self.old.piece) }
        ensures counts { (self.new.calls ≡ one_more self.old.calls) × Counts self.old.faults self.new.faults result }
        ensures kept { (self.new.fails ≡ self.old.fails) × (self.new.piece ≡ self.old.piece)
            × (self.new.room ≡ self.old.room) }
    {
        self.calls.begin()?;
        if !piece.is_empty() && self.len == self.buffer.len() {
            self.calls.fault();
            return Err(Failed);
        }
        let count = append_front(piece, self.piece as usize, &mut self.buffer, self.len);
        self.len += count;
        Ok(count)
    }
}

// Copies bytes after the first ones of a buffer, as many as fit and at most this many.
fn append_front(bytes: &[u8], most: usize, buffer: &mut [u8], len: usize) -> usize
    requires within { len ≤ length buffer.old }
    ensures bytes { take (len + result) buffer.new ≡ take len buffer.old ++ take result bytes.now }
    ensures size { result ≡ min (min (length bytes.now) (length buffer.old - len)) most }
{
    let (_, rest) = buffer.split_at_mut(len);
    copy_front(bytes, most, rest)
}

/// Files in memory, by their names.
#[derive(Drop)]
pub struct MemFiles {
    files: Vec<(Text, Text)>,
    calls: Calls,
}

impl Model for MemFiles {
    ghost Value = { Stored };

    ghost view = { λ m. record {
      files = m.files.items;
      fails = m.calls.fails.items;
      calls = m.calls.made;
      faults = m.calls.faults;
    } };
}

impl MemFiles {
    /// Pairs of a name and what the file holds, of which the first of a name counts; no call was made. The calls in `fails`,
    /// counted from 1, fail, and so does one for a file that is not there.
    pub fn new(files: Vec<(Text, Text)>, fails: Vec<u32>) -> MemFiles
        ensures { result ≡ record { files = files.items; fails = fails.items; calls = 0; faults = 0 } }
    {
        MemFiles {
            files,
            calls: Calls::new(fails),
        }
    }

    /// The count of faults.
    pub fn faults(&self) -> u64
        ensures { result ≡ self.now.faults }
    {
        self.calls.faults
    }
}

impl Files for MemFiles {
    ghost told = { λ _. true };

    ghost reliable = { λ m. names_none m.fails };

    ghost content = { λ m. content_of m.files };

    ghost faults = { λ m. m.faults };

    fn load(&mut self, name: &str, into: &mut Vec<u8>, most: u64) -> Result<(), LoadFault>
        ensures loads { Loads true (content_of self.old.files name.now) most into.old.items into.new.items
            self.old.faults self.new.faults result }
        ensures blame { FailsForNone (names_none self.old.fails) (content_of self.old.files name.now) result }
        ensures kept { content_of self.new.files ≡ content_of self.old.files }
        ensures reliable { names_none self.new.fails ≡ names_none self.old.fails }
        ensures later { self.old.faults ≤ self.new.faults }
        ensures named { (result ≡ Err LoadFault.Failed)
            ↔ (IsNamed self.old.fails self.old.calls ⊎ (content_of self.old.files name.now ≡ None)) }
        ensures counts { (self.new.calls ≡ one_more self.old.calls)
            × LoadCounts true self.old.faults self.new.faults result }
        ensures same { (self.new.files ≡ self.old.files) × (self.new.fails ≡ self.old.fails) }
    {
        if let Err(_) = self.calls.begin() {
            return Err(LoadFault::Failed);
        }
        let Some(content) = find_file(&self.files, name) else {
            self.calls.fault();
            return Err(LoadFault::Failed);
        };
        append_file(content.bytes(), into, most)
    }
}

// What the first file of a name holds.
fn find_file<'a>(files: &'a [(Text, Text)], name: &str) -> Option<&'a Text>
    ensures { MatchOption result
        (content_of files.now name.now ≡ None)
        (λ content. content_of files.now name.now ≡ Some content.now) }
{
    for file in files {
        if file.0.bytes() == name.as_bytes() {
            return Some(&file.1);
        }
    }
    None
}

// Appends a file within the limit.
fn append_file(content: &[u8], into: &mut Vec<u8>, most: u64) -> Result<(), LoadFault>
    ensures loads { Loads true (Some content.now) most into.old.items into.new.items 0 0 result }
    ensures not_failed { result ≢ Err LoadFault.Failed }
{
    if content.len() as u64 > most {
        return Err(LoadFault::TooLong);
    }
    match into.extend_from_slice(content) {
        Ok(()) => Ok(()),
        Err(_) => Err(LoadFault::Memory),
    }
}
