//! Lines of the greatest length, values of the greatest width, and the greatest number of rows.

ghost use Rattle.std.specs.Prelude.{◌≡◌, ◌≤◌, IfOk};

use dt_core::text::Text;
use dt_io::memory::MemSource;
use std::alloc::Global;
use std::test::*;
use stimulus::reader::StimReader;
use stimulus::refusal::{Input, Refusal, RefusalKind, StimFault};

// Bytes that are written again and again, how often, what stands after them, how many rows come, and why there are no more.
#[derive(Clone, Copy)]
struct Case {
    byte: &'static str,
    times: usize,
    after: &'static str,
    piece: u32,
    rows: u32,
    fault: Option<StimFault>,
}

static CASES: [Case; 8] = [
    Case {
        byte: "0",
        times: 524_286,
        after: "ff\n1\n",
        piece: 100_000,
        rows: 2,
        fault: None,
    },
    Case {
        byte: "0",
        times: 524_286,
        after: "ff\n1\n",
        piece: 1,
        rows: 2,
        fault: None,
    },
    Case {
        byte: "0",
        times: 524_287,
        after: "ff\n",
        piece: 100_000,
        rows: 0,
        fault: Some(StimFault::Refused(Refusal {
            kind: RefusalKind::LineTooLong,
            line: 3,
        })),
    },
    Case {
        byte: "0",
        times: 524_289,
        after: "",
        piece: 100_000,
        rows: 0,
        fault: Some(StimFault::Refused(Refusal {
            kind: RefusalKind::LineTooLong,
            line: 3,
        })),
    },
    Case {
        byte: "0",
        times: 524_285,
        after: "ff\r\n",
        piece: 100_000,
        rows: 1,
        fault: None,
    },
    Case {
        byte: "0",
        times: 524_286,
        after: "ff\r\n",
        piece: 100_000,
        rows: 0,
        fault: Some(StimFault::Refused(Refusal {
            kind: RefusalKind::LineTooLong,
            line: 3,
        })),
    },
    Case {
        byte: "f",
        times: 32,
        after: "\n0",
        piece: 100_000,
        rows: 1,
        fault: Some(StimFault::Refused(Refusal {
            kind: RefusalKind::Truncated,
            line: 4,
        })),
    },
    Case {
        byte: "f",
        times: 33,
        after: "\n",
        piece: 100_000,
        rows: 0,
        fault: Some(StimFault::Refused(Refusal {
            kind: RefusalKind::TooLarge,
            line: 3,
        })),
    },
];

// A reader for one data input of 128 bits.
fn reader(alloc: Global) -> Result<StimReader, Fail> {
    let bus = Input {
        name: Text::copied(alloc, b"bus")?,
        width: 128,
    };
    Ok(StimReader::new(alloc, vec![in alloc; bus]?)?)
}

// The head, a text again and again, and what stands after it.
fn text_of(alloc: Global, again: &str, times: usize, after: &str) -> Result<Vec<u8>, Fail> {
    let mut text = Vec::new(alloc);
    text.extend_from_slice(b"stimulus 1\ninputs bus\n")?;
    for _ in 0..times {
        text.extend_from_slice(again.as_bytes())?;
    }
    text.extend_from_slice(after.as_bytes())?;
    Ok(text)
}

// How many rows a text gives, and why there are no more.
fn count_rows(alloc: Global, text: Vec<u8>, piece: u32) -> Result<(u32, Option<StimFault>), Fail>
    requires { 1 ≤ piece }
{
    let mut source = MemSource::new(text, piece, Vec::new(alloc));
    let mut reader = reader(alloc)?;
    let mut rows: u32 = 0;
    let mut fault = None;
    for _ in 0..2_000_000 {
        if !reader.live() {
            break;
        }
        match reader.next_row(alloc, &mut source) {
            Ok(true) => rows = rows.wrapping_add(1),
            Ok(false) => {}
            Err(why) => fault = Some(why),
        }
    }
    Ok((rows, fault))
}

#[test]
fn a_line_has_at_most_524288_bytes(rt: HostRuntime) -> Result<(), Fail> {
    let alloc: Global = rt.alloc();
    for (number, case) in CASES.iter().enumerate() {
        assert!(rt; case.piece >= 1);
        let text = text_of(alloc, case.byte, case.times, case.after)?;
        let (rows, fault) = count_rows(alloc, text, case.piece)?;
        assert_eq!(rt; rows, case.rows, "case {number}");
        assert_eq!(rt; fault, case.fault, "case {number}");
    }
    Ok(())
}

#[test]
fn there_are_at_most_1048576_rows(rt: HostRuntime) -> Result<(), Fail> {
    let alloc: Global = rt.alloc();
    let (rows, fault) = count_rows(alloc, text_of(alloc, "7\n", 1_048_576, "")?, 1_000_000)?;
    assert_eq!(rt; (rows, fault), (1_048_576, None));
    let (rows, fault) = count_rows(alloc, text_of(alloc, "7\n", 1_048_576, "g\n")?, 1_000_000)?;
    let refusal = Refusal {
        kind: RefusalKind::TooManyRows,
        line: 1_048_579,
    };
    assert_eq!(rt;
        (rows, fault),
        (1_048_576, Some(StimFault::Refused(refusal)))
    );
    Ok(())
}
