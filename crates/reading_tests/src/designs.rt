//! Texts that are designs, and texts with one fault each.

use std::alloc::Global;
use std::test::*;
use vl_front::{DesignFault, read_design};
use vl_tree::fault::FaultKind;

const HEADER: &[u8] =
    b"module m(input clk, input a, output reg [3:0] r); always @(posedge clk) begin ";

// Why a text is no design, if it is none.
fn fault_of(alloc: Global, text: &[u8]) -> Result<Option<DesignFault>, Fail> {
    fault_under(alloc, text, None)
}

// The same where a top of this name may be asked for.
fn fault_under(
    alloc: Global,
    text: &[u8],
    top: Option<&[u8]>,
) -> Result<Option<DesignFault>, Fail> {
    if text.len() > 1_000_000 {
        return Err("a text too long for a test".into());
    }
    match read_design(alloc, text, top) {
        Ok(_) => Ok(None),
        Err(DesignFault::Memory) => Err("no memory".into()),
        Err(fault) => Ok(Some(fault)),
    }
}

// No fault, or that of a text that isn't built yet.
fn refusal_unless(accepted: bool) -> Option<DesignFault> {
    if accepted {
        None
    } else {
        Some(DesignFault::NotYetBuilt)
    }
}

// A design whose block has these statements.
fn with_body(alloc: Global, body: &[u8]) -> Result<Vec<u8>, Fail> {
    let mut text = Vec::new(alloc);
    text.extend_from_slice(HEADER)?;
    text.extend_from_slice(body)?;
    text.extend_from_slice(b" end endmodule\n")?;
    Ok(text)
}

static STATEMENTS: [(&[u8], bool); 19] = [
    (b"r <= 4'd16;", true),
    (b"r <= 4'sd8 + r;", true),
    (b"r <= 4'b1z0x;", true),
    (b"r <= 4'dx_;", true),
    (b"r <= r + 1 + 1;", false),
    (b"r <= !a;", true),
    (
        b"if (a) r <= 1; else if (r == 2) r <= 3; else r <= 4;",
        true,
    ),
    (b"if (a) if (r) r <= 1; else r <= 2;", true),
    (b"begin begin end end", true),
    (b"$display(\"%0d and %%\", r);", true),
    (b"$display(\"\\101\\n\\t\\\"\\\\\");", true),
    (b"$display(\"%\");", false),
    (b"$stop; $stop;", false),
    (b"r <= clk;", false),
    (b"$display(\"%0d\", clk);", false),
    (b"r <= b;", false),
    (b"a <= r;", false),
    (b"\n`ifdef NONE\nr <= b;\n`else\nr <= a;\n`endif\n", true),
    (b"\n`ifndef NONE\nr <= b;\n`else\nr <= a;\n`endif\n", false),
];

#[test]
fn statements_at_each_edge(rt: HostRuntime) -> Result<(), Fail> {
    for (body, accepted) in STATEMENTS.iter() {
        let text = with_body(rt.alloc(), body)?;
        assert_eq!(rt; fault_of(rt.alloc(), &text)?, refusal_unless(*accepted));
    }
    Ok(())
}

/// Texts with a fault of the first three phases; each begins on line 1.
static FAULTS: [(&[u8], u8, u32, FaultKind); 19] = [
    (b"wire `FOO;\n", 1, 1, FaultKind::UnknownMacro),
    (b"`ifdef A\n`else\n", 1, 1, FaultKind::Unbalanced),
    (b"\n\n`include \"a.v\"\n", 1, 3, FaultKind::BadDirective),
    (b"`define A `A\n`A\n", 1, 2, FaultKind::MacroDepth),
    (b"module m\n\x7f\n", 1, 2, FaultKind::BadByte),
    (b"\n/* open\n\n", 1, 2, FaultKind::OpenComment),
    (b"r <= 4294967296;", 2, 1, FaultKind::BadNumber),
    (b"\n129'd1", 2, 2, FaultKind::TooWide),
    (b"4'b2", 2, 1, FaultKind::BadNumber),
    (b"x\n\"open", 2, 2, FaultKind::OpenString),
    (b"(* open\n", 2, 1, FaultKind::BadToken),
    (b"0'd1 `FOO", 1, 1, FaultKind::UnknownMacro),
    (b"endmodule", 3, 1, FaultKind::Syntax),
    (b"module m;\n\nendmodule\n;", 3, 4, FaultKind::Syntax),
    (b"module m;\nwire\n\n", 3, 2, FaultKind::Syntax),
    (
        b"module m(input c);\nalways @(posedge c)\nbegin end\n",
        3,
        3,
        FaultKind::Syntax,
    ),
    (
        b"module m;\nwire a = \n(1;\nwire b = 129'd1; endmodule",
        2,
        4,
        FaultKind::TooWide,
    ),
    (
        b"module m;\nassign a = b\n<= c;\nassign d = e +\n; endmodule",
        3,
        5,
        FaultKind::Syntax,
    ),
    (
        b"module m; initial a = b\n= c; endmodule",
        3,
        2,
        FaultKind::Syntax,
    ),
];

#[test]
fn the_first_fault_has_its_line(rt: HostRuntime) -> Result<(), Fail> {
    for (text, phase, line, kind) in FAULTS.iter() {
        let fault = DesignFault::At {
            phase: *phase,
            line: *line,
            kind: *kind,
        };
        assert_eq!(rt; fault_of(rt.alloc(), text)?, Some(fault));
    }
    Ok(())
}

/// Texts without a fault of these phases.
static TEXTS: [(&[u8], bool); 12] = [
    (
        b"module m(input c); always @(posedge c) begin end endmodule",
        true,
    ),
    (
        b"module m(input \\a+b , output reg [0:0] \\if ); always @(posedge \\a+b ) begin \\if <= 1; end endmodule",
        true,
    ),
    (
        b"module m(input c, output reg [0:127] q); always @(posedge c) begin q <= 1; end endmodule",
        true,
    ),
    (
        b"module m(input c, output reg ['hFFFF:16'hff80] q); always @(posedge c) begin q <= 1; end endmodule",
        true,
    ),
    (
        b"module m(input c, output reg [128:0] q); always @(posedge c) begin end endmodule",
        false,
    ),
    (
        b"module m(input c, output reg [4'sd8:0] q); always @(posedge c) begin end endmodule",
        false,
    ),
    (
        b"module m(input c, input c); always @(posedge c) begin end endmodule",
        false,
    ),
    (
        b"module m(input a, output reg [0:0] c); always @(posedge c) begin end endmodule",
        false,
    ),
    (
        b"module m(input c, input r); always @(posedge c or posedge r) begin end endmodule",
        false,
    ),
    (b"module m; endmodule", false),
    (
        b"module m; wire [7:0] a = b ? c : d; endmodule module n; endmodule",
        false,
    ),
    (
        b"module m(input c); always @(posedge c) if (c) ; else begin : x end endmodule",
        false,
    ),
];

// Texts with the name of a top, and why each is no design.
static TOPS: [(&[u8], &[u8], Option<DesignFault>); 6] = [
    (
        b"module m(input c); always @(posedge c) begin end endmodule",
        b"m",
        None,
    ),
    (
        b"\n// two\nmodule m(input c); always @(posedge c) begin end endmodule",
        b"M",
        Some(DesignFault::NoTop { line: 3 }),
    ),
    (
        b"\nmodule m; endmodule module n; endmodule",
        b"o",
        Some(DesignFault::NoTop { line: 2 }),
    ),
    (
        b"module m; endmodule module n; endmodule",
        b"n",
        Some(DesignFault::NotYetBuilt),
    ),
    (
        b"module \\if (input c); always @(posedge c) begin end endmodule",
        b"if",
        None,
    ),
    (b"", b"m", Some(DesignFault::NoTop { line: 1 })),
];

#[test]
fn a_top_is_a_module_of_its_name(rt: HostRuntime) -> Result<(), Fail> {
    for (text, top, fault) in TOPS.iter() {
        assert_eq!(rt; fault_under(rt.alloc(), text, Some(*top))?, *fault);
    }
    let none = DesignFault::NoTop { line: 1 };
    assert_eq!(rt; fault_of(rt.alloc(), b"\n\n")?, Some(none));
    Ok(())
}

#[test]
fn texts_of_one_module(rt: HostRuntime) -> Result<(), Fail> {
    for (text, accepted) in TEXTS.iter() {
        assert_eq!(rt; fault_of(rt.alloc(), text)?, refusal_unless(*accepted));
    }
    Ok(())
}
