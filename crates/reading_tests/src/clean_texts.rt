//! Texts with their clean text, and texts with a fault.

use std::test::*;
use vl_pre::{Clean, preprocess};
use vl_tree::fault::{FaultKind, StaticFault};

/// A text, and the bytes of its clean text by their lines.
#[derive(Clone, Copy)]
struct Case {
    text: &'static [u8],
    clean: &'static [(u32, &'static [u8])],
}

static CASES: [Case; 12] = [
    Case {
        text: b"a// \xff\x00`FOO\nb/* \xc3 \n`FOO */c",
        clean: &[(1, b"a \n"), (2, b"b "), (3, b"c")],
    },
    Case {
        text: b"\"a//b\\\"/*`x\" //\n\\a/*`b\"\t//",
        clean: &[(1, b"\"a//b\\\"/*`x\"  \n"), (2, b"\\a/*`b\"\t ")],
    },
    Case {
        text: b"`define W \t 8 \x0c // width\n`W'd0",
        clean: &[(1, b"\n"), (2, b"8'd0")],
    },
    Case {
        text: b"`define S a\\\n b\\\r\n\tc\n`S",
        clean: &[(3, b"\n"), (4, b"a  b \tc")],
    },
    Case {
        text: b"`define A \"a\\\n`B\" c\n`define B 1\n[`A]",
        clean: &[(2, b"\n"), (3, b"\n"), (4, b"[\"a `B\" c]")],
    },
    Case {
        text: b"`define A \\x \n[`A]",
        clean: &[(1, b"\n"), (2, b"[\\x]")],
    },
    Case {
        text: b"`define A 1\n`A`define A 2\n`A`undef A b",
        clean: &[(1, b"\n"), (2, b"1\n"), (3, b"2 b")],
    },
    Case {
        text: b"`define B (`A)\n`define A 1\n`B\n\n`B",
        clean: &[
            (1, b"\n"),
            (2, b"\n"),
            (3, b"(1)\n"),
            (4, b"\n"),
            (5, b"(1)"),
        ],
    },
    Case {
        text: b"`define B\n`ifdef A a`elsif B b`elsif B c`else d`endif",
        clean: &[(1, b"\n"), (2, b" b")],
    },
    Case {
        text: b"`ifdef A `ifndef B b`elsif C c`else d`endif e`else f`endif",
        clean: &[(1, b" f")],
    },
    Case {
        text: b"`ifdef A `FOO \xe9 ` \"`endif\" /*`endif*/ //`endif\n\\`define A\n`undef B`elsefoo`include`endif c",
        clean: &[(3, b" c")],
    },
    Case {
        text: b"`default_nettype none \\\n`resetall /*\n*/ x\n`celldefine \"/*\"\n`endcelldefine",
        clean: &[(1, b"\n"), (3, b"\n"), (4, b"\n")],
    },
];

/// Seventeen macros, each but the first the use of the one before.
const CHAIN: &[u8] =
    b"`define M0 1\n`define M1 `M0\n`define M2 `M1\n`define M3 `M2\n`define M4 `M3\n`define M5 `M4\n`define M6 `M5\n`define M7 `M6\n`define M8 `M7\n`define M9 `M8\n`define M10 `M9\n`define M11 `M10\n`define M12 `M11\n`define M13 `M12\n`define M14 `M13\n`define M15 `M14\n`define M16 `M15\n`M16";

/// Texts with the kind and line of their first fault.
static REFUSED: [(&[u8], FaultKind, u32); 15] = [
    (b"a\n\x7f", FaultKind::BadByte, 2),
    (b"`define A \\\n\x01", FaultKind::BadByte, 2),
    (b"a\n/*/ b\n", FaultKind::OpenComment, 2),
    (b"`ifdef A\n/*", FaultKind::OpenComment, 2),
    (b"`define A(x) x", FaultKind::BadDirective, 1),
    (b"`ifdef A\n`elsif\n", FaultKind::BadDirective, 2),
    (b"`define A `\n`define B `A\n`B", FaultKind::BadDirective, 3),
    (b"`define A `B\n\n`A", FaultKind::UnknownMacro, 3),
    (CHAIN, FaultKind::MacroDepth, 18),
    (b"`ifdef A\n`ifdef B\n", FaultKind::Unbalanced, 2),
    (b"\n`endif", FaultKind::Unbalanced, 2),
    (b"`elsif /* a", FaultKind::Unbalanced, 1),
    (b"`elsif", FaultKind::Unbalanced, 1),
    (b"`ifdef A `else\n`elsif endif\n", FaultKind::Unbalanced, 2),
    (b"`ifdef A `else\n`else\n", FaultKind::Unbalanced, 2),
];

// The place after these bytes, where the clean text has them from this place on, on this line.
fn after(clean: &Clean, from: u32, line: u32, bytes: &[u8]) -> Option<u32> {
    let mut k = from;
    for byte in bytes {
        if k >= clean.len() || clean.line(k) != line || clean.byte(k) != Some(*byte) {
            return None;
        }
        k = k.saturating_add(1);
    }
    Some(k)
}

// Whether the clean text is these bytes by their lines.
fn is(clean: &Clean, wanted: &[(u32, &[u8])]) -> bool {
    let mut from: u32 = 0;
    for (line, bytes) in wanted {
        let Some(next) = after(clean, from, *line, *bytes) else {
            return false;
        };
        from = next;
    }
    from == clean.len() && clean.byte(from).is_none() && clean.bytes().len() == clean.lines().len()
}

#[test]
fn texts_have_their_clean_text(rt: HostRuntime) -> Result<(), Fail> {
    for (i, case) in CASES.iter().enumerate() {
        assert!(rt; case.text.len() < 1000);
        let clean = preprocess(rt.alloc(), case.text)?;
        assert!(rt; is(&clean, case.clean), "case {i}");
    }
    Ok(())
}

#[test]
fn texts_have_their_first_fault(rt: HostRuntime) -> Result<(), Fail> {
    for (i, (text, kind, line)) in REFUSED.iter().enumerate() {
        assert!(rt; text.len() < 1000);
        assert_eq!(rt;
            preprocess(rt.alloc(), *text).err(),
            Some(StaticFault::on_line(1, *line, *kind)),
            "case {i}"
        );
    }
    Ok(())
}

/// Sixteen macros that give nothing, each but the first six uses of the one before: 6^15 uses, if each were looked at.
static TOWER: &[u8] =
    b"`define B0\n`define B1 `B0`B0`B0`B0`B0`B0\n`define B2 `B1`B1`B1`B1`B1`B1\n`define B3 `B2`B2`B2`B2`B2`B2\n`define B4 `B3`B3`B3`B3`B3`B3\n`define B5 `B4`B4`B4`B4`B4`B4\n`define B6 `B5`B5`B5`B5`B5`B5\n`define B7 `B6`B6`B6`B6`B6`B6\n`define B8 `B7`B7`B7`B7`B7`B7\n`define B9 `B8`B8`B8`B8`B8`B8\n`define B10 `B9`B9`B9`B9`B9`B9\n`define B11 `B10`B10`B10`B10`B10`B10\n`define B12 `B11`B11`B11`B11`B11`B11\n`define B13 `B12`B12`B12`B12`B12`B12\n`define B14 `B13`B13`B13`B13`B13`B13\n`define B15 `B14`B14`B14`B14`B14`B14\n`B15";

#[test]
fn uses_that_give_nothing_take_little_time(rt: HostRuntime) -> Result<(), Fail> {
    assert!(rt; TOWER.len() < 2000);
    let clean = preprocess(rt.alloc(), TOWER)?;
    assert_eq!(rt; clean.len(), 16);
    Ok(())
}
