//! Texts, the rows that they give, and why there are no more.

ghost use Rattle.std.specs.Prelude.{◌≡◌, ◌≤◌, IfOk};

use dt_core::text::Text;
use dt_io::memory::MemSource;
use std::alloc::Global;
use std::test::*;
use stimulus::reader::StimReader;
use stimulus::refusal::{Input, Refusal, RefusalKind, StimFault};

// A text, the most bytes of a read, the read that fails, the values of the rows that are given, and why there are no more.
#[derive(Clone, Copy)]
struct Case {
    text: &'static str,
    piece: u32,
    fails: u32,
    rows: &'static str,
    fault: Option<StimFault>,
}

static HEADS: [Case; 12] = [
    Case {
        text: "stimulus 1\ninputs rst en bus\n0 1 2a\n1 0 7F\n",
        piece: 1_000,
        fails: 3,
        rows: "0 1 42\n1 0 127\n",
        fault: None,
    },
    Case {
        text: "stimulus 1\ninputs rst en bus\n0 1 2a\n1 0 7F\n",
        piece: 1,
        fails: 0,
        rows: "0 1 42\n1 0 127\n",
        fault: None,
    },
    Case {
        text: "stimulus 1\r\ninputs bus rst en\r\n00ff 1 00\r\n",
        piece: 1_000,
        fails: 0,
        rows: "1 0 255\n",
        fault: None,
    },
    Case {
        text: "",
        piece: 1_000,
        fails: 0,
        rows: "",
        fault: Some(StimFault::Refused(Refusal {
            kind: RefusalKind::Truncated,
            line: 1,
        })),
    },
    Case {
        text: "stimulus 1",
        piece: 1_000,
        fails: 0,
        rows: "",
        fault: Some(StimFault::Refused(Refusal {
            kind: RefusalKind::Truncated,
            line: 1,
        })),
    },
    Case {
        text: "stimulus 1\n",
        piece: 1_000,
        fails: 0,
        rows: "",
        fault: Some(StimFault::Refused(Refusal {
            kind: RefusalKind::Truncated,
            line: 2,
        })),
    },
    Case {
        text: "stimulus 1\ninputs rst en bus",
        piece: 1_000,
        fails: 0,
        rows: "",
        fault: Some(StimFault::Refused(Refusal {
            kind: RefusalKind::Truncated,
            line: 2,
        })),
    },
    Case {
        text: "stimulus 2\n",
        piece: 1_000,
        fails: 0,
        rows: "",
        fault: Some(StimFault::Refused(Refusal {
            kind: RefusalKind::BadHeader,
            line: 1,
        })),
    },
    Case {
        text: "stimulus 1\ninputs  rst en bus\n",
        piece: 1_000,
        fails: 0,
        rows: "",
        fault: Some(StimFault::Refused(Refusal {
            kind: RefusalKind::BadHeader,
            line: 2,
        })),
    },
    Case {
        text: "stimulus 1\ninputs rst q en\n",
        piece: 1_000,
        fails: 0,
        rows: "",
        fault: Some(StimFault::Refused(Refusal {
            kind: RefusalKind::UnknownInput,
            line: 2,
        })),
    },
    Case {
        text: "stimulus 1\ninputs rst en en\n",
        piece: 1_000,
        fails: 0,
        rows: "",
        fault: Some(StimFault::Refused(Refusal {
            kind: RefusalKind::RepeatedInput,
            line: 2,
        })),
    },
    Case {
        text: "stimulus 1\ninputs rst en\n",
        piece: 1_000,
        fails: 0,
        rows: "",
        fault: Some(StimFault::Refused(Refusal {
            kind: RefusalKind::MissingInput,
            line: 2,
        })),
    },
];

static ROWS: [Case; 13] = [
    Case {
        text: "stimulus 1\ninputs rst en bus\n0 1 0\n0 1\n",
        piece: 1_000,
        fails: 0,
        rows: "0 1 0\n",
        fault: Some(StimFault::Refused(Refusal {
            kind: RefusalKind::WrongCount,
            line: 4,
        })),
    },
    Case {
        text: "stimulus 1\ninputs rst en bus\n\n",
        piece: 1_000,
        fails: 0,
        rows: "",
        fault: Some(StimFault::Refused(Refusal {
            kind: RefusalKind::WrongCount,
            line: 3,
        })),
    },
    Case {
        text: "stimulus 1\ninputs rst en bus\n0 1 0 \n",
        piece: 1_000,
        fails: 0,
        rows: "",
        fault: Some(StimFault::Refused(Refusal {
            kind: RefusalKind::WrongCount,
            line: 3,
        })),
    },
    Case {
        text: "stimulus 1\ninputs rst en bus\n0 g 100\n",
        piece: 1_000,
        fails: 0,
        rows: "",
        fault: Some(StimFault::Refused(Refusal {
            kind: RefusalKind::BadValue,
            line: 3,
        })),
    },
    Case {
        text: "stimulus 1\ninputs rst en bus\n 1 0\n",
        piece: 1_000,
        fails: 0,
        rows: "",
        fault: Some(StimFault::Refused(Refusal {
            kind: RefusalKind::BadValue,
            line: 3,
        })),
    },
    Case {
        text: "stimulus 1\ninputs rst en bus\n0  1\n",
        piece: 1_000,
        fails: 0,
        rows: "",
        fault: Some(StimFault::Refused(Refusal {
            kind: RefusalKind::BadValue,
            line: 3,
        })),
    },
    Case {
        text: "stimulus 1\ninputs rst en bus\n0 2 g\n",
        piece: 1_000,
        fails: 0,
        rows: "",
        fault: Some(StimFault::Refused(Refusal {
            kind: RefusalKind::TooLarge,
            line: 3,
        })),
    },
    Case {
        text: "stimulus 1\ninputs rst en bus\n0 1 ff\n0 1 100\n",
        piece: 1_000,
        fails: 0,
        rows: "0 1 255\n",
        fault: Some(StimFault::Refused(Refusal {
            kind: RefusalKind::TooLarge,
            line: 4,
        })),
    },
    Case {
        text: "stimulus 1\ninputs rst en bus\n0 1 ff\n0 2 0\r\r\n",
        piece: 1_000,
        fails: 0,
        rows: "0 1 255\n",
        fault: Some(StimFault::Refused(Refusal {
            kind: RefusalKind::TooLarge,
            line: 4,
        })),
    },
    Case {
        text: "stimulus 1\ninputs rst en bus\n0 1 ff\r\r\n",
        piece: 1_000,
        fails: 0,
        rows: "",
        fault: Some(StimFault::Refused(Refusal {
            kind: RefusalKind::BadValue,
            line: 3,
        })),
    },
    Case {
        text: "stimulus 1\ninputs rst en bus\n0 1 7\n0 1 g",
        piece: 1_000,
        fails: 3,
        rows: "0 1 7\n",
        fault: Some(StimFault::Refused(Refusal {
            kind: RefusalKind::Truncated,
            line: 4,
        })),
    },
    Case {
        text: "stimulus 1\ninputs rst en bus\n0 1 7\n0 1 g",
        piece: 1_000,
        fails: 2,
        rows: "0 1 7\n",
        fault: Some(StimFault::Read),
    },
    Case {
        text: "stimulus 1\ninputs rst en bus\n0 1 7\n0 1 g\n",
        piece: 1_000,
        fails: 2,
        rows: "0 1 7\n",
        fault: Some(StimFault::Refused(Refusal {
            kind: RefusalKind::BadValue,
            line: 4,
        })),
    },
];

// A data input of this width.
fn input(alloc: Global, name: &[u8], width: u32) -> Result<Input, Fail>
    ensures { IfOk result (λ i. i.width ≡ width) }
{
    Ok(Input {
        name: Text::copied(alloc, name)?,
        width,
    })
}

// A reader for `rst` and `en` of one bit and `bus` of eight.
fn reader(alloc: Global) -> Result<StimReader, Fail> {
    let inputs = vec![in alloc;
        input(alloc, b"rst", 1)?,
        input(alloc, b"en", 1)?,
        input(alloc, b"bus", 8)?,
    ]?;
    Ok(StimReader::new(alloc, inputs)?)
}

// Reads all rows of a case: their values, with a line's end after each row, and why there are no more.
fn read_all(alloc: Global, case: &Case) -> Result<(Vec<u8>, Option<StimFault>), Fail>
    requires { 1 ≤ case.now.piece }
{
    let text = case.text.as_bytes().to_vec(alloc)?;
    let mut source = MemSource::new(text, case.piece, [case.fails].to_vec(alloc)?);
    let mut reader = reader(alloc)?;
    let mut rows = Vec::new(alloc);
    let mut fault = None;
    for _ in 0..8 {
        if !reader.live() {
            break;
        }
        match reader.next_row(alloc, &mut source) {
            Ok(true) => push_row(alloc, &mut rows, reader.row())?,
            Ok(false) => {}
            Err(why) => fault = Some(why),
        }
    }
    Ok((rows, fault))
}

// Appends the values of a row, with a space between, and a line's end.
fn push_row(alloc: Global, rows: &mut Vec<u8>, row: &[u128]) -> Result<(), Fail> {
    for (k, value) in row.iter().enumerate() {
        if k > 0 {
            rows.push(b' ')?;
        }
        let text = format!(in alloc; "{value}")?;
        rows.extend_from_slice(text.as_bytes())?;
    }
    rows.push(b'\n')?;
    Ok(())
}

#[test]
fn each_refusal_of_the_head_has_its_line(rt: HostRuntime) -> Result<(), Fail> {
    let alloc: Global = rt.alloc();
    for (number, case) in HEADS.iter().enumerate() {
        assert!(rt; case.piece >= 1);
        let (rows, fault) = read_all(alloc, case)?;
        assert_eq!(rt; rows.as_slice(), case.rows.as_bytes(), "case {number}");
        assert_eq!(rt; fault, case.fault, "case {number}");
    }
    Ok(())
}

#[test]
fn each_refusal_of_a_row_has_its_line(rt: HostRuntime) -> Result<(), Fail> {
    let alloc: Global = rt.alloc();
    for (number, case) in ROWS.iter().enumerate() {
        assert!(rt; case.piece >= 1);
        let (rows, fault) = read_all(alloc, case)?;
        assert_eq!(rt; rows.as_slice(), case.rows.as_bytes(), "case {number}");
        assert_eq!(rt; fault, case.fault, "case {number}");
    }
    Ok(())
}
