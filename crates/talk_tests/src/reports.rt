//! Answers, and their reports.

use dt_core::text::Text;
use dt_io::memory::MemSink;
use std::alloc::Global;
use std::test::*;
use talk::answer::{Answer, LoopLine, StopLine};
use talk::report::write_report;

// An assertion that fired, without its message.
fn stop(alloc: Global, fatal: bool, line: u32, message: &[u8]) -> Result<StopLine, Fail> {
    Ok(StopLine {
        path: Text::copied(alloc, b"top.u1")?,
        fatal,
        file: Text::copied(alloc, b"rtl/a.v")?,
        line,
        message: Text::copied(alloc, message)?,
    })
}

// A failure with messages that are empty, end with LF, and don't.
fn failure(alloc: Global) -> Result<Answer, Fail> {
    let mut stops = Vec::new(alloc);
    stops.push(stop(alloc, false, 9, b"r hit 9\n")?)?;
    stops.push(stop(alloc, true, 4294967295, b"two\nlines")?)?;
    stops.push(stop(alloc, false, 1, b"")?)?;
    Ok(Answer::Failure {
        cycle: 4294967295,
        stops,
        first: 0,
    })
}

const FAILURE: &[u8] = b"failure at cycle 4294967295
stop in top.u1 at rtl/a.v:9
r hit 9
fatal in top.u1 at rtl/a.v:4294967295
two
lines
stop in top.u1 at rtl/a.v:1
window 0 to 4294967295
";

// A fault of the design, with the parts of a loop.
fn loop_fault(alloc: Global) -> Result<Answer, Fail> {
    let mut parts = Vec::new(alloc);
    for (place, width) in [(0, 1), (127, 128)] {
        parts.push(LoopLine {
            path: Text::copied(alloc, b"top.w")?,
            place,
            width,
        })?;
    }
    Ok(Answer::Design {
        file: Text::copied(alloc, b"a.v")?,
        line: 3,
        kind: Text::copied(alloc, b"Loop")?,
        parts,
    })
}

const LOOP: &[u8] = b"design: a.v:3: Loop\nloop top.w 0 1\nloop top.w 127 128\n";

const NO_FAILURE: &[u8] = b"no failure in 0 cycles\n";

const NO_FAILURE_IN: &[u8] = b"no failure in cycles 5 to 12\n";

const USAGE: &[u8] = b"usage: word 18\n";

const STIMULUS: &[u8] = b"stimulus: line 500001: BadValue\n";

const IMAGE: &[u8] = b"image: line 1: WrongVersion\n";

const FILE_FAILED: &[u8] = b"file a.v: failed\n";

const FILE_TOO_LONG: &[u8] = b"file b c.v: too long\n";

const INPUT_FAILED: &[u8] = b"input: read failed\n";

const OUTPUT_FAILED: &[u8] = b"output: write failed\n";

// What is held after a report, where the calls in `fails` fail, and whether it was written.
fn reported(alloc: Global, answer: &Answer, fails: &[u32]) -> Result<(Vec<u8>, bool), Fail> {
    let mut sink = MemSink::new(alloc, 4096, 4096, fails.to_vec(alloc)?)?;
    let written = write_report(&mut sink, answer).is_ok();
    Ok((sink.bytes().to_vec(alloc)?, written))
}

// Whether the answer has this report.
fn has_report(alloc: Global, answer: Answer, report: &[u8]) -> Result<bool, Fail> {
    let (held, written) = reported(alloc, &answer, &[])?;
    Ok(written && held.as_slice() == report)
}

#[test]
fn results_have_these_reports(rt: HostRuntime) -> Result<(), Fail> {
    let alloc: Global = rt.alloc();
    assert!(rt; has_report(alloc, failure(alloc)?, FAILURE)?);
    assert!(rt; has_report(alloc, loop_fault(alloc)?, LOOP)?);
    assert!(rt; has_report(alloc, Answer::NoFailure { cycles: 0 }, NO_FAILURE)?);
    let window = Answer::NoFailureIn { first: 5, last: 12 };
    assert!(rt; has_report(alloc, window, NO_FAILURE_IN)?);
    assert!(rt; has_report(alloc, Answer::Usage { number: 18 }, USAGE)?);
    assert!(rt; has_report(alloc, Answer::InputFailed, INPUT_FAILED)?);
    assert!(rt; has_report(alloc, Answer::OutputFailed, OUTPUT_FAILED)?);
    Ok(())
}

#[test]
fn refusals_have_these_reports(rt: HostRuntime) -> Result<(), Fail> {
    let alloc: Global = rt.alloc();
    let kind = Text::copied(alloc, b"BadValue")?;
    assert!(rt; has_report(alloc, Answer::Stimulus { line: 500001, kind }, STIMULUS)?);
    let kind = Text::copied(alloc, b"WrongVersion")?;
    assert!(rt; has_report(alloc, Answer::Image { line: 1, kind }, IMAGE)?);
    let name = Text::copied(alloc, b"a.v")?;
    assert!(rt; has_report(alloc, Answer::FileFailed { name }, FILE_FAILED)?);
    let name = Text::copied(alloc, b"b c.v")?;
    assert!(rt; has_report(alloc, Answer::FileTooLong { name }, FILE_TOO_LONG)?);
    Ok(())
}

#[test]
fn a_report_ends_at_the_first_call_that_fails(rt: HostRuntime) -> Result<(), Fail> {
    let alloc: Global = rt.alloc();
    let answer = Answer::NoFailureIn { first: 5, last: 12 };
    for (call, front) in [
        (1, ""),
        (2, "no failure in cycles "),
        (3, "no failure in cycles 5"),
        (5, "no failure in cycles 5 to 12"),
        (6, "no failure in cycles 5 to 12\n"),
    ] {
        let (held, written) = reported(alloc, &answer, &[call])?;
        assert_eq!(rt; written, call == 6);
        assert_eq!(rt; held.as_slice(), front.as_bytes());
    }
    Ok(())
}
