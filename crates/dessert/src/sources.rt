//! The files of a design: the text that they make together, and where each of its lines stands.

ghost use Rattle.std.specs.Prelude.{◌≡◌, ◌≤◌, ◌+◌, ◌++◌, ◌==◌, ℕ, List, length, OnOk, IfOk, IfErr};
ghost use Rattle.std.specs.List.{count_by};
ghost use Rattle.dt_io.specs.declared.outside.LoadFault.TheVariants as load;
ghost use Rattle.dessert.specs.Outside.{files_at};
ghost use Rattle.talk.specs.Plain.{named};
ghost use Rattle.dessert.specs.Sources as sources;
ghost use Rattle.dessert.specs.Sources.{closed, spot_in, SpotsAreRight};
ghost use Rattle.dessert.specs.Calls.Loading.{LoadsOne, IsLoaded, NotLoaded};

use dt_core::limits::{MAX_FILE, MAX_FILES};
use dt_io::outside::{Files, LoadFault};
use std::alloc::Global;
use std::marker::Model;

/// The files of a design: their names, and how many lines each has in the design's text.
#[derive(Drop)]
pub struct Origins<'a> {
    names: &'a [&'a str],
    counts: Vec<u32>,
}

impl<'a> Model for Origins<'a> {
    ghost use Rattle.dessert.specs.Sources.{Origins as PlainOrigins};
    ghost use Rattle.talk.specs.Plain.{named};

    ghost Value = { PlainOrigins };

    ghost view = { λ o. record { names = named o.names.now; counts = o.counts.items } };
}

/// A line of a file, from 1.
#[derive(Clone, Copy)]
pub struct Spot<'a> {
    pub file: &'a str,
    pub line: u32,
}

impl Origins<'_> {
    /// Where a line of the design's text stands.
    pub fn spot(&self, line: u32) -> Spot<'_>
        ensures file { result.file.now ≡ (spot_in self.now line).file }
        ensures line { result.line ≡ (spot_in self.now line).line }
    {
        spot_among(self.names, &self.counts, line)
    }
}

// Where a line stands in files of these names that have so many lines. It calls itself once for each file.
fn spot_among<'a>(names: &'a [&'a str], counts: &[u32], line: u32) -> Spot<'a>
    ensures file { result.file.now ≡ (sources.spot_among (named names.now) counts.now line).file }
    ensures line { result.line ≡ (sources.spot_among (named names.now) counts.now line).line }
{
    match (names, counts) {
        ([_, others @ ..], [count, more @ ..]) if !others.is_empty() && line > *count => {
            spot_among(others, more, line - *count)
        }
        ([name, ..], _) => Spot { file: *name, line },
        ([], _) => Spot { file: "", line },
    }
}

/// Each line of the text of a design is the line of the file that its spot names.
pub fn spot_law()
    ensures { SpotsAreRight }
{}

/// The text of a design, and where its lines stand.
#[derive(Drop)]
pub struct Sources<'a> {
    pub text: Vec<u8>,
    pub origins: Origins<'a>,
}

/// Why the files of a design weren't loaded.
#[derive(Clone, Copy)]
pub enum SourcesFault<'a> {
    /// The file of this name couldn't be read.
    Failed(&'a str),
    /// The file of this name has more than 4,194,304 bytes.
    TooLong(&'a str),
    /// Out of memory.
    Memory,
}

/// Loads the files of these names, in their order.
pub fn load_sources<'a, F: Files>(
    alloc: Global,
    names: &'a [&'a str],
    files: &mut F,
) -> Result<Sources<'a>, SourcesFault<'a>>
    requires few { length names.now ≤ MAX_FILES }
    ensures loaded { let seen = files_at F.Files in
        IfOk result (λ s. IsLoaded (seen files.old) (named names.now) s.text.items s.origins.counts) }
    ensures names { IfOk result (λ s. s.origins.names ≡ named names.now) }
    ensures same { OnOk result (files_at F.Files files.new ≡ files_at F.Files files.old) }
    ensures fault { let seen = files_at F.Files in
        IfErr result (NotLoaded (seen files.old) (seen files.new) (named names.now)) }
{
    let mut text = Vec::new(alloc);
    let mut counts = Vec::new(alloc);
    for name in names {
        let count = match load_one(files, name, &mut text) {
            Ok(count) => count,
            Err(LoadFault::Failed) => return Err(SourcesFault::Failed(*name)),
            Err(LoadFault::TooLong) => return Err(SourcesFault::TooLong(*name)),
            Err(LoadFault::Memory) => return Err(SourcesFault::Memory),
        };
        if counts.push(count).is_err() {
            return Err(SourcesFault::Memory);
        }
    }
    let origins = Origins { names, counts };
    Ok(Sources { text, origins })
}

// Appends a file to the text, closed, and counts its lines.
fn load_one<F: Files>(files: &mut F, name: &str, text: &mut Vec<u8>) -> Result<u32, LoadFault>
    requires room { length text.old.items + (MAX_FILE + 1) ≤ u32.MAX }
    ensures loads { let seen = files_at F.Files in
        LoadsOne (seen files.old) (seen files.new) name.now text.old.items text.new.items result }
    ensures same { OnOk result (files_at F.Files files.new ≡ files_at F.Files files.old) }
{
    let start = text.len();
    files.load(name, text, MAX_FILE)?;
    close(text, start)?;
    Ok(count_lines(text.split_at(start).1))
}

// Appends LF to a text, unless what stands in it from `start` on ends with one.
fn close(text: &mut Vec<u8>, start: usize) -> Result<(), LoadFault>
    requires { start ≤ length text.old.items }
    ensures closes { OnOk result ((front file : List ℕ) → text.old.items ≡ front ++ file → length front ≡ start
        → text.new.items ≡ front ++ closed file) }
    ensures fails { IfErr result (λ e. e ≡ load.Memory) }
{
    if ends_line(text.split_at(start).1) {
        return Ok(());
    }
    match text.push(b'\n') {
        Ok(()) => Ok(()),
        Err(_) => Err(LoadFault::Memory),
    }
}

// Whether the bytes end with LF.
fn ends_line(bytes: &[u8]) -> bool
    ensures { result ≡ sources.ends_line bytes.now }
{
    match bytes {
        [] => false,
        [.., last] => *last == b'\n',
    }
}

// How many LF stand in the bytes.
fn count_lines(bytes: &[u8]) -> u32
    requires { length bytes.now ≤ u32.MAX }
    ensures { result ≡ count_by (λ b. b == 10) bytes.now }
{
    let mut count = 0;
    for byte in bytes {
        if *byte == b'\n' {
            count += 1;
        }
    }
    count
}
