//! The program: the words, the real files and streams, and the status that it ends with.
//!
//! Below: `dessert` (the top call), `dt_io` (std's streams and files, as the traits see them), `flat_sim` (the count of steps).
#![tactic(auto)]

mod help;

ghost use Rattle.std.specs.Prelude.{◌≡◌, ◌<◌};

use dessert::quiet_main;
use dt_io::outside::{Sink, write_all};
use dt_io::real::{DiskFiles, StdSink, StdSource};
use flat_sim::steps::Steps;
use help::{HELP, VERSION};
use std::alloc::{AllocError, Global};
use std::marker::Brand;
use std::process::ExitCode;
use std::sync::ledger::{Blank, Ledger};
use std::{env, io};

// Out of memory.
const NO_MEMORY: u8 = 9;

// Standard output failed.
const WRITE_FAILED: u8 = 7;

fn main(rt: HostRuntime) -> io::Result<ExitCode> {
    let Ok(words) = read_words(&rt) else {
        return Ok(ExitCode::from(NO_MEMORY));
    };
    let Ok(words) = borrowed(rt.alloc(), &words) else {
        return Ok(ExitCode::from(NO_MEMORY));
    };
    let mut out = StdSink::new(rt.stdout());
    let status = match words.as_slice() {
        [first, ..] if *first == "--help" => print(&mut out, HELP),
        [first, ..] if *first == "--version" => print(&mut out, VERSION),
        all => run::<_, Brand>(rt, all, &mut out, Blank::new(1)),
    };
    Ok(ExitCode::from(status))
}

// The program's words after its name. Words of which one isn't UTF-8 have no allowed form, as none have.
fn read_words(rt: &HostRuntime) -> Result<Vec<String>, AllocError> {
    let mut words = Vec::new(rt.alloc());
    let all = match env::args(rt) {
        Ok(all) => all,
        Err(error) if error.kind() == io::ErrorKind::OutOfMemory => return Err(AllocError),
        Err(_) => return Ok(words),
    };
    for word in all.skip(1) {
        words.push(word)?;
    }
    Ok(words)
}

// The words as the top call takes them.
fn borrowed(alloc: Global, words: &[String]) -> Result<Vec<&str>, AllocError> {
    let mut list = Vec::new(alloc);
    for word in words {
        list.push(word.as_str())?;
    }
    Ok(list)
}

// Prints a text on standard output.
fn print<K: Sink>(out: &mut K, text: &[u8]) -> u8 {
    match write_all(out, text) {
        Ok(()) => 0,
        Err(_) => WRITE_FAILED,
    }
}

// The top call over the real outside. Its steps count on a ledger of their own, which takes no bytes.
fn run<K: Sink, L: Ledger>(rt: HostRuntime, words: &[&str], out: &mut K, blank: Blank) -> u8
    requires name { blank.name ≡ L.name }
    requires parts { (blank.parts ≡ L.parts) × (0 < blank.parts) }
{
    let mut files = DiskFiles::new(rt);
    let mut stimulus = StdSource::new(rt.stdin());
    let mut report = StdSink::new(rt.stderr());
    quiet_main(
        rt.alloc(),
        words,
        &mut files,
        &mut stimulus,
        out,
        &mut report,
        &mut Steps::<L>::new(blank),
    )
}
