//! Bytes that were taken from a source and not passed over yet, with room for a line.

ghost use Rattle.std.specs.Prelude.{◌≡◌, ◌+◌, ◌-◌, ◌≤◌, ◌++◌, [], List, ℕ, IfOk, OnErr, MatchResult, length, drop, take};
ghost use Rattle.std.specs.List.{slice_range};
ghost use Rattle.std.specs.Io.KnownBytes.{Consumes, IsAtEnd};
ghost use Rattle.dt_core.specs.Causes.{HasCause};
ghost use Rattle.stimulus.specs.Calls.Turns.{Fills};

use crate::refusal::MAX_LINE;
use dt_core::fault::{Failed, NoMemory};
use dt_io::outside::Source;
use std::alloc::Global;
use std::marker::Model;

/// Bytes that one call to the source may give.
const READ: usize = 65_536;

// A line that may still go on, and the bytes of one call.
const ROOM: usize = MAX_LINE + READ;

/// The bytes that were taken and not passed over yet.
#[derive(Drop)]
pub(crate) struct Buffer {
    bytes: Vec<u8>,
    at: usize,
    end: usize,
    fresh: usize,
}

impl Model for Buffer {
    ghost use Rattle.std.specs.Prelude.{◌≡◌, ◌≤◌, length, slice_range};
    ghost use Rattle.stimulus.specs.Reader.{Held};
    ghost use Rattle.stimulus.specs.declared.buffer.TheConstants.{ROOM};

    ghost Value = { Held };

    ghost view = { λ b. record { bytes = slice_range b.bytes.items b.at b.end; fresh = b.fresh } };

    ghost invariant = { λ b. (length b.bytes.items ≡ ROOM) × (b.at ≤ b.end) × (b.end ≤ length b.bytes.items) };
}

impl Buffer {
    /// An empty buffer.
    pub fn new(alloc: Global) -> Result<Buffer, NoMemory>
        ensures { IfOk result (λ b. b ≡ record { bytes = []; fresh = 0 }) }
    {
        Ok(Buffer {
            bytes: vec![in alloc; 0u8; ROOM]?,
            at: 0,
            end: 0,
            fresh: 0,
        })
    }

    /// The bytes that it holds.
    pub fn held(&self) -> &[u8]
        ensures value { result.now ≡ self.now.bytes }
        ensures few { length self.now.bytes ≤ ROOM }
    {
        &self.bytes[self.at..self.end]
    }

    /// Passes over the first bytes.
    pub fn skip(&mut self, count: usize)
        requires { count ≤ length self.old.bytes }
        ensures bytes { self.new.bytes ≡ drop count self.old.bytes }
        ensures fresh { self.new.fresh ≡ self.old.fresh }
    {
        self.at += count;
    }

    /// Takes further bytes from the source by one call: whether it gave any, which is false at the source's end.
    pub fn fill<S: Source>(&mut self, source: &mut S) -> Result<bool, Failed>
        requires { length self.old.bytes ≤ MAX_LINE }
        ensures fills { (more : List ℕ) × Consumes (S.left source.old) (S.left source.new) more
            × Fills self.old self.new more (S.left source.new) result }
        ensures cause { HasCause (S.faults source.old) (S.faults source.new) result }
    {
        let len = self.end - self.at;
        to_front(&mut self.bytes, self.at, self.end);
        self.at = 0;
        self.end = len;
        match read_after(&mut self.bytes, len, source) {
            Ok(0) => {
                self.fresh = 0;
                Ok(false)
            }
            Ok(count) => {
                self.end = len + count;
                self.fresh = count;
                Ok(true)
            }
            Err(fault) => Err(fault),
        }
    }
}

// Moves a part to the front.
fn to_front(bytes: &mut [u8], at: usize, end: usize)
    requires { (at ≤ end) × (end ≤ length bytes.old) }
    ensures part { take (end - at) bytes.new ≡ slice_range bytes.old at end }
    ensures size { length bytes.new ≡ length bytes.old }
{
    if at > 0 {
        bytes.copy_within(at..end, 0);
    }
}

// Reads bytes to the place after the first `len`: how many.
fn read_after<S: Source>(bytes: &mut [u8], len: usize, source: &mut S) -> Result<usize, Failed>
    requires { len + READ ≤ length bytes.old }
    ensures size { length bytes.new ≡ length bytes.old }
    ensures front { take len bytes.new ≡ take len bytes.old }
    ensures few { IfOk result (λ n. n ≤ READ) }
    ensures taken { MatchResult result
        (λ n. Consumes (S.left source.old) (S.left source.new) (take n (drop len bytes.new)))
        (λ _. Consumes (S.left source.old) (S.left source.new) []) }
    ensures end { IfOk result (λ n. n ≡ 0 → IsAtEnd (S.left source.new)) }
    ensures cause { HasCause (S.faults source.old) (S.faults source.new) result }
{
    source.read(&mut bytes[len..len + READ])
}
