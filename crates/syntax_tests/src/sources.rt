//! Texts of sources: whether they are one, or the token at which none goes on; each front of a text at its own place; depth.

use std::alloc::Global;
use std::test::*;
use vl_source::{SynFault, parse_source};
use vl_tree::token::Token;

// The tokens of a text.
fn tokens_of(alloc: Global, text: &[u8]) -> Result<Vec<Token>, Fail> {
    if text.len() > 1_000_000 {
        return Err("a text too long for a test".into());
    }
    let Ok(clean) = vl_pre::preprocess(alloc, text) else {
        return Err("no clean text".into());
    };
    let Ok(tokens) = vl_lex::lex(alloc, &clean) else {
        return Err("no tokens".into());
    };
    Ok(tokens)
}

// How many modules the tokens are, or why they are no source.
fn modules_of(alloc: Global, tokens: &[Token]) -> Result<usize, SynFault> {
    if tokens.len() > 1_000_000 {
        return Err(SynFault::Memory);
    }
    match parse_source(alloc, tokens) {
        Ok(source) => Ok(source.modules.len()),
        Err(fault) => Err(fault),
    }
}

// A module with this text so many times before the middle, and this one as often after it.
fn nested(
    alloc: Global,
    count: u32,
    before: &[u8],
    middle: &[u8],
    after: &[u8],
) -> Result<Vec<u8>, Fail> {
    let mut text = Vec::new(alloc);
    text.extend_from_slice(b"module m; ")?;
    for _ in 0..count {
        text.extend_from_slice(before)?;
    }
    text.extend_from_slice(middle)?;
    for _ in 0..count {
        text.extend_from_slice(after)?;
    }
    text.extend_from_slice(b" endmodule")?;
    Ok(text)
}

/// Texts that are sources, and how many modules they have.
static SOURCES: [(&[u8], usize); 30] = [
    (b"", 0),
    (b"module m; endmodule module n; endmodule", 2),
    (b"module m(); endmodule", 1),
    (b"module m(a, b); input a; output [3:0] b; endmodule", 1),
    (
        b"module m(input wire signed [1:0] a, b, output reg c); endmodule",
        1,
    ),
    (
        b"module m #(parameter signed [1:0] A = 1, B = 2, parameter C = 3)(input a); endmodule",
        1,
    ),
    (
        b"module m; parameter [3:0] A = 1, B = A + 1; localparam signed C = 0; endmodule",
        1,
    ),
    (
        b"module m; wire signed [1:0] a, b = a ? a : 1, c; endmodule",
        1,
    ),
    (
        b"module m; reg a, b = 1, c [0:3]; integer i, j = 2, k [1:0]; genvar g, h; endmodule",
        1,
    ),
    (b"module m; assign a = b, {c, d[0]} = {2{e}}; endmodule", 1),
    (b"module m; always @* ; always @(*) ; endmodule", 1),
    (
        b"module m; always @(posedge a or negedge b, c[1]) begin end endmodule",
        1,
    ),
    (b"module m; initial begin : b end endmodule", 1),
    (
        b"module m; function f; input a; f = a; endfunction endmodule",
        1,
    ),
    (
        b"module m; function automatic signed [3:0] f(input a, b, input signed [1:0] c); reg d; integer e; begin end endfunction endmodule",
        1,
    ),
    (
        b"module m; function integer f(input a); f = 1; endfunction endmodule",
        1,
    ),
    (b"module m; n i(); endmodule", 1),
    (b"module m; n #() i(a, b), j(.a(1), .b()); endmodule", 1),
    (
        b"module m; n #(1, 2) i(a); n #(.A(1)) j(.a(b)); endmodule",
        1,
    ),
    (b"module m; generate wire a; endgenerate endmodule", 1),
    (b"module m; generate endgenerate endmodule", 1),
    (
        b"module m; for (i = 0; i < 4; i = i + 1) begin : g wire a; end endmodule",
        1,
    ),
    (
        b"module m; for (i = 0; i < 4; i = i + 1) n j(i); endmodule",
        1,
    ),
    (b"module m; if (A) wire a; endmodule", 1),
    (
        b"module m; if (A) wire a; else if (B) begin end else begin : c wire b; end endmodule",
        1,
    ),
    (b"module m; if (A) if (B) wire a; else wire b; endmodule", 1),
    (
        b"module m; if (A) begin if (B) wire a; end else wire b; endmodule",
        1,
    ),
    (b"module \\a+b ; wire \\if ; endmodule", 1),
    (
        b"module m; wire a = b <= c; always @* a <= b <= c; endmodule",
        1,
    ),
    (
        b"module m; wire a = -1 + &b * ~^c; wire [b:0] d = e[f+:2][1]; endmodule",
        1,
    ),
];

#[test]
fn texts_that_are_sources(rt: HostRuntime) -> Result<(), Fail> {
    for (i, (text, count)) in SOURCES.iter().enumerate() {
        let tokens = tokens_of(rt.alloc(), text)?;
        assert_eq!(rt; modules_of(rt.alloc(), &tokens), Ok(*count), "text {i}");
    }
    Ok(())
}

/// Texts that are none, and the number of the token at which no source goes on.
static REFUSED: [(&[u8], u32); 32] = [
    (b";", 0),
    (b"module", 1),
    (b"module 1", 1),
    (b"module m endmodule", 2),
    (b"module m; endmodule endmodule", 4),
    (b"module m(a input b); endmodule", 4),
    (b"module m(a,); endmodule", 5),
    (b"module m(a, input b); endmodule", 5),
    (b"module m #(A = 1); endmodule", 4),
    (b"module m #(); endmodule", 4),
    (b"module m; wire; endmodule", 4),
    (b"module m; wire a [1:0]; endmodule", 5),
    (b"module m; reg a [1]; endmodule", 7),
    (b"module m; reg a = 1 [0:1]; endmodule", 7),
    (b"module m; input integer a; endmodule", 4),
    (b"module m; parameter A; endmodule", 5),
    (b"module m; assign a; endmodule", 5),
    (b"module m; assign a <= 1; endmodule", 5),
    (b"module m; assign a + 1 = b; endmodule", 5),
    (b"module m; always a = 1; endmodule", 4),
    (b"module m; always @a ; endmodule", 5),
    (b"module m; always @() ; endmodule", 6),
    (b"module m; always @(posedge) ; endmodule", 7),
    (b"module m; function f(); endfunction endmodule", 6),
    (b"module m; function f; endfunction endmodule", 6),
    (b"module m; n i; endmodule", 5),
    (b"module m; n i(a, .b(c)); endmodule", 8),
    (b"module m; n i(.a(b), c); endmodule", 12),
    (b"module m; begin end endmodule", 3),
    (b"module m; else wire a; endmodule", 3),
    (b"module m; if (A) wire a; else endmodule", 11),
    (b"module m; generate endmodule", 4),
];

#[test]
fn texts_that_are_none(rt: HostRuntime) -> Result<(), Fail> {
    for (i, (text, token)) in REFUSED.iter().enumerate() {
        let tokens = tokens_of(rt.alloc(), text)?;
        assert_eq!(rt;
            modules_of(rt.alloc(), &tokens),
            Err(SynFault::At { token: *token }),
            "text {i}"
        );
    }
    Ok(())
}

/// Texts of one module, of which each front is refused at its end.
static WHOLE: [&[u8]; 3] = [
    b"module m #(parameter A = 1, B = 2)(input [3:0] a, b, output reg c); wire d = a[1] ? {2{b}} : -c;
        always @(posedge a or b) if (a) c <= d; else case (b) 1, 2: ; default begin : e $display(\"x\", a); end endcase endmodule",
    b"module m; n #(.A(1)) i(a, b), j(); assign {a, b} = c; function integer f(input a, b); integer d; f = a; endfunction endmodule",
    b"module m; generate for (i = 0; i < 2; i = i + 1) begin : g if (i) wire a; else begin end end endgenerate reg r [0:1]; endmodule",
];

#[test]
fn each_front_is_refused_at_its_end(rt: HostRuntime) -> Result<(), Fail> {
    for text in WHOLE.iter() {
        let tokens = tokens_of(rt.alloc(), text)?;
        assert_eq!(rt; modules_of(rt.alloc(), &tokens), Ok(1));
        for count in 1..tokens.len() {
            let (front, _) = tokens.split_at(count);
            let token = u32::try_from(count).unwrap_or(0);
            assert_eq!(rt;
                modules_of(rt.alloc(), front),
                Err(SynFault::At { token }),
                "front {count}"
            );
        }
    }
    Ok(())
}

// Items of a module stand at depth 1; what an `if` with `begin` encloses is two deeper.
#[test]
fn reads_as_deep_as_200(rt: HostRuntime) -> Result<(), Fail> {
    let rows: [(u32, &[u8], &[u8], &[u8], Result<usize, SynFault>); 4] = [
        (99, b"if (1) begin ", b"wire a;", b" end", Ok(1)),
        (100, b"if (1) begin ", b"", b" end", Ok(1)),
        (
            100,
            b"if (1) begin ",
            b"wire a;",
            b" end",
            Err(SynFault::Deep { token: 503 }),
        ),
        (5000, b"if (1) wire a; else ", b"wire a;", b"", Ok(1)),
    ];
    for (count, before, middle, after, answer) in rows {
        let text = nested(rt.alloc(), count, before, middle, after)?;
        let tokens = tokens_of(rt.alloc(), &text)?;
        assert_eq!(rt; modules_of(rt.alloc(), &tokens), answer, "{count}");
    }
    Ok(())
}
