//! Texts with their tokens, and texts with a fault.

use std::test::Fail;
use vl_lex::lex;
use vl_pre::preprocess;
use vl_tree::fault::{FaultKind, StaticFault};
use vl_tree::token::{Key, Mark, System, Token, TokenKind};

/// What a token should be; a number by its width, whether the width was written, its sign, its value and its wild bits.
#[derive(Clone, Copy)]
enum Shape {
    Name(&'static [u8]),
    System(System),
    Number(u32, bool, bool, u128, u128),
    Str(&'static [u8]),
    Key(Key),
    Mark(Mark),
}

/// A text, and the line and kind of each of its tokens.
#[derive(Clone, Copy)]
struct Case {
    text: &'static [u8],
    tokens: &'static [(u32, Shape)],
}

static CASES: [Case; 8] = [
    Case {
        text: b"q<=\\if ~^ $stop(_a$1);\r\n\t$finish casex\x0c.b",
        tokens: &[
            (1, Shape::Name(b"q")),
            (1, Shape::Mark(Mark::LessEqual)),
            (1, Shape::Name(b"if")),
            (1, Shape::Mark(Mark::Xnor)),
            (1, Shape::System(System::Stop)),
            (1, Shape::Mark(Mark::OpenParen)),
            (1, Shape::Name(b"_a$1")),
            (1, Shape::Mark(Mark::CloseParen)),
            (1, Shape::Mark(Mark::Semicolon)),
            (2, Shape::System(System::Other)),
            (2, Shape::Key(Key::Casex)),
            (2, Shape::Mark(Mark::Dot)),
            (2, Shape::Name(b"b")),
        ],
    },
    Case {
        text: b"4_2 4294967295 4'd15 4'd16 4'sd8 1_2'D1_ 3 'd1 'sd5 'hFFFFFFFF 1'b1",
        tokens: &[
            (1, Shape::Number(32, false, true, 42, 0)),
            (1, Shape::Number(32, false, true, 4_294_967_295, 0)),
            (1, Shape::Number(4, true, false, 15, 0)),
            (1, Shape::Number(4, true, false, 0, 0)),
            (1, Shape::Number(4, true, true, 8, 0)),
            (1, Shape::Number(12, true, false, 1, 0)),
            (1, Shape::Number(32, false, true, 3, 0)),
            (1, Shape::Number(32, false, false, 1, 0)),
            (1, Shape::Number(32, false, true, 5, 0)),
            (1, Shape::Number(32, false, false, 4_294_967_295, 0)),
            (1, Shape::Number(1, true, false, 1, 0)),
        ],
    },
    Case {
        text: b"8'bz1 12'hx 8'h1? 2'bz0z1 8'bx1z 'oz 4'hz_1 128'bz",
        tokens: &[
            (1, Shape::Number(8, true, false, 1, 254)),
            (1, Shape::Number(12, true, false, 0, 0)),
            (1, Shape::Number(8, true, false, 16, 15)),
            (1, Shape::Number(2, true, false, 1, 2)),
            (1, Shape::Number(8, true, false, 2, 1)),
            (1, Shape::Number(32, false, false, 0, 4_294_967_295)),
            (1, Shape::Number(4, true, false, 1, 0)),
            (1, Shape::Number(128, true, false, 0, u128::MAX)),
        ],
    },
    Case {
        text: b"8'd? 128'sdz 4'dx 128'd340282366920938463463374607431768211455 128'hffffffffffffffffffffffffffffffff 4'dz_ 4'd5?",
        tokens: &[
            (1, Shape::Number(8, true, false, 0, 255)),
            (1, Shape::Number(128, true, true, 0, u128::MAX)),
            (1, Shape::Number(4, true, false, 0, 0)),
            (1, Shape::Number(128, true, false, u128::MAX, 0)),
            (1, Shape::Number(128, true, false, u128::MAX, 0)),
            (1, Shape::Number(4, true, false, 0, 15)),
            (1, Shape::Number(4, true, false, 5, 0)),
            (1, Shape::Mark(Mark::Question)),
        ],
    },
    Case {
        text: b"\n\"a\\n\\t\\101\\\"\\\\\\377\\0011\" \"\" \"// (* `x\"",
        tokens: &[
            (2, Shape::Str(b"a\n\tA\"\\\xff\x011")),
            (2, Shape::Str(b"")),
            (2, Shape::Str(b"// (* `x")),
        ],
    },
    Case {
        text: b"a===b!==c>>>=+:-:<<<",
        tokens: &[
            (1, Shape::Name(b"a")),
            (1, Shape::Mark(Mark::CaseEqual)),
            (1, Shape::Name(b"b")),
            (1, Shape::Mark(Mark::CaseNotEqual)),
            (1, Shape::Name(b"c")),
            (1, Shape::Mark(Mark::ArithmeticRight)),
            (1, Shape::Mark(Mark::Equals)),
            (1, Shape::Mark(Mark::PlusColon)),
            (1, Shape::Mark(Mark::MinusColon)),
            (1, Shape::Mark(Mark::ArithmeticLeft)),
        ],
    },
    Case {
        text: b"(* keep = \"*)\\\"\" \n *) wire (**) a (* \"*)\n*) @(*)@( * )(*\t)",
        tokens: &[
            (2, Shape::Key(Key::Wire)),
            (2, Shape::Name(b"a")),
            (3, Shape::Mark(Mark::At)),
            (3, Shape::Mark(Mark::OpenParen)),
            (3, Shape::Mark(Mark::Star)),
            (3, Shape::Mark(Mark::CloseParen)),
            (3, Shape::Mark(Mark::At)),
            (3, Shape::Mark(Mark::OpenParen)),
            (3, Shape::Mark(Mark::Star)),
            (3, Shape::Mark(Mark::CloseParen)),
            (3, Shape::Mark(Mark::OpenParen)),
            (3, Shape::Mark(Mark::Star)),
            (3, Shape::Mark(Mark::CloseParen)),
        ],
    },
    // A macro's bytes and those round it may make one token; each token is on the line of its first byte.
    Case {
        text: b"`define W 8 // bits\n`define V h1F\n`W'`V /* a\nb */ x\n`ifndef A\n$stop;\n`endif\n",
        tokens: &[
            (3, Shape::Number(8, true, false, 31, 0)),
            (4, Shape::Name(b"x")),
            (6, Shape::System(System::Stop)),
            (6, Shape::Mark(Mark::Semicolon)),
        ],
    },
];

/// Texts with the kind and line of their first fault.
static REFUSED: [(&[u8], FaultKind, u32); 20] = [
    (b"a\n12ab", FaultKind::BadNumber, 2),
    (b"4294967296", FaultKind::BadNumber, 1),
    (b"0_0'd1", FaultKind::BadNumber, 1),
    (b"4'd 1", FaultKind::BadNumber, 1),
    (b"1'b_1", FaultKind::BadNumber, 1),
    (b"4'd?1", FaultKind::BadNumber, 1),
    (b"129'b2", FaultKind::BadNumber, 1),
    (b"4294967296'd1", FaultKind::TooWide, 1),
    (
        b"4'h100000000000000000000000000000000",
        FaultKind::TooWide,
        1,
    ),
    (b"'h100000000", FaultKind::TooWide, 1),
    (b"4'q1", FaultKind::BadToken, 1),
    (b"\\ a", FaultKind::BadToken, 1),
    (b"$ a", FaultKind::BadToken, 1),
    (b"\"a\nb\"", FaultKind::OpenString, 1),
    (b"`define Q \"a\n\n`Q\n", FaultKind::OpenString, 3),
    (b"`define Q \"a\\ //\n`Q", FaultKind::BadToken, 2),
    (b"\n\"a\\", FaultKind::OpenString, 2),
    (b"\"a\\\n\"", FaultKind::BadToken, 1),
    (b"\"\\400\"", FaultKind::BadToken, 1),
    (b"a\n(* b\n \"*)\"", FaultKind::BadToken, 2),
];

fn has_shape(kind: &TokenKind, shape: Shape) -> bool {
    match (kind, shape) {
        (TokenKind::Name(name), Shape::Name(wanted)) => name.bytes() == wanted,
        (TokenKind::System(system), Shape::System(wanted)) => *system == wanted,
        (TokenKind::Number(l), Shape::Number(width, sized, signed, value, wild)) => {
            l.width == width
                && l.sized == sized
                && l.signed == signed
                && l.value == value
                && l.wild == wild
        }
        (TokenKind::Str(text), Shape::Str(wanted)) => text.bytes() == wanted,
        (TokenKind::Key(key), Shape::Key(wanted)) => *key == wanted,
        (TokenKind::Mark(mark), Shape::Mark(wanted)) => *mark == wanted,
        _ => false,
    }
}

fn are(tokens: &[Token], wanted: &[(u32, Shape)]) -> bool {
    tokens.len() == wanted.len()
        && tokens.iter().zip(wanted).all(|(token, (line, shape))| {
            token.line == *line && has_shape(&token.kind, *shape)
        })
}

#[test]
fn texts_have_these_tokens(rt: HostRuntime) -> Result<(), Fail> {
    for case in &CASES {
        assert!(rt; case.text.len() < 1000);
        let clean = preprocess(rt.alloc(), case.text)?;
        let tokens = lex(rt.alloc(), &clean)?;
        assert!(rt; are(tokens.as_slice(), case.tokens));
    }
    Ok(())
}

#[test]
fn texts_have_these_faults(rt: HostRuntime) -> Result<(), Fail> {
    for (text, kind, line) in &REFUSED {
        assert!(rt; text.len() < 1000);
        let clean = preprocess(rt.alloc(), *text)?;
        assert_eq!(rt;
            lex(rt.alloc(), &clean).err(),
            Some(StaticFault::on_line(2, *line, *kind))
        );
    }
    Ok(())
}
