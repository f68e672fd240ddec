//! What no clause says: how many calls are made, and that the real objects work. An object in memory fails in the call that is
//! one too many.

ghost use Rattle.std.specs.Prelude.{◌≡◌, IfOk};

use dt_io::memory::{MemSink, MemSource};
use dt_io::outside::{Files, LoadFault, Sink, Source, write_all};
use dt_io::real::{DiskFiles, StdSink, StdSource, append_all};
use std::alloc::Global;
use std::io::{Error, ErrorKind, Read, Write};
use std::test::*;
use std::{env, fs, io, process};

// A reader and writer that gives or takes all that it is handed, fails in one call, and counts its calls.
#[derive(Drop)]
struct Faulty {
    fails: u32,
    calls: u32,
}

impl Faulty {
    // Counts a call, which fails or moves so many bytes.
    fn call(&mut self, count: usize) -> io::Result<usize>
        ensures { IfOk result (λ n. n ≡ count) }
    {
        self.calls = self.calls.saturating_add(1);
        if self.calls == self.fails {
            return Err(Error::from(ErrorKind::BrokenPipe));
        }
        Ok(count)
    }
}

impl Read for Faulty {
    fn read(&mut self, buf: &mut [u8]) -> io::Result<usize> {
        self.call(buf.len())
    }
}

impl Write for Faulty {
    fn write(&mut self, buf: &[u8]) -> io::Result<usize> {
        self.call(buf.len())
    }

    fn flush(&mut self) -> io::Result<()> {
        Ok(())
    }
}

#[test]
fn a_real_source_makes_one_call_for_all_that_fits(rt: HostRuntime) {
    let mut reader = Faulty { fails: 2, calls: 0 };
    let mut source = StdSource::new(&mut reader);
    let mut buf = [0u8; 64];
    for want in [Some(64), None, Some(64)] {
        assert_eq!(rt; source.read(&mut buf).ok(), want);
    }
    assert_eq!(rt; source.faults(), 1);
    assert_eq!(rt; reader.calls, 3);
}

#[test]
fn a_real_sink_makes_one_call_for_all_that_fits(rt: HostRuntime) {
    let mut writer = Faulty { fails: 2, calls: 0 };
    let mut sink = StdSink::new(&mut writer);
    for want in [Some(4), None, Some(4)] {
        assert_eq!(rt; sink.write(b"four").ok(), want);
    }
    assert_eq!(rt; sink.faults(), 1);
    assert_eq!(rt; writer.calls, 3);
}

#[test]
fn no_call_is_made_that_is_not_needed(rt: HostRuntime) -> Result<(), Fail> {
    let alloc: Global = rt.alloc();
    for (text, fails) in [("", 1), ("0123456789", 5)] {
        let mut sink = MemSink::new(alloc, 10, 3, [fails].to_vec(alloc)?)?;
        assert!(rt; write_all(&mut sink, text.as_bytes()).is_ok());
        assert_eq!(rt; sink.bytes(), text.as_bytes());
        let mut source = MemSource::new(
            text.as_bytes().to_vec(alloc)?,
            3,
            [fails + 1].to_vec(alloc)?,
        );
        let mut into = Vec::new(alloc);
        assert!(rt; append_all(&mut source, &mut into, 10).is_ok());
    }
    Ok(())
}

#[test]
fn files_on_the_disk_are_loaded_whole(rt: HostRuntime) -> Result<(), Fail> {
    let alloc: Global = rt.alloc();
    let content = vec![in alloc; 7u8; 70_000]?;
    let folder = env::temp_dir(&rt)?;
    let name = format!(in alloc; "{}/dt_io-{}", folder.as_str(), process::id(rt.process()))?;
    fs::write(&rt, name.as_str(), content.as_slice())?;
    let mut files = DiskFiles::new(rt);
    let mut into = Vec::new(alloc);
    for (name, most, want, faults) in [
        ("no/such/file", 70_000, Err(LoadFault::Failed), 1),
        (".", 70_000, Err(LoadFault::Failed), 2),
        (name.as_str(), 69_999, Err(LoadFault::TooLong), 3),
        (name.as_str(), 70_000, Ok(()), 3),
    ] {
        assert_eq!(rt; files.load(name, &mut into, most), want);
        assert_eq!(rt; files.faults(), faults);
    }
    assert_eq!(rt; into.as_slice(), content.as_slice());
    fs::remove_file(&rt, name.as_str())?;
    Ok(())
}
