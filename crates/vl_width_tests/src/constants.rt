//! Constant expressions with their width, their sign and their value; expressions that are none.

use crate::sample::Sample;
use std::alloc::Global;
use std::test::Fail;
use vl_expr::parse_expr;
use vl_lex::lex;
use vl_pre::preprocess;
use vl_tree::fault::{FaultKind, StaticFault};
use vl_width::constants::constant;
use vl_width::number::Constant;

struct Row {
    text: &'static [u8],
    told: (u32, bool, u128),
}

static OPERATORS: [Row; 20] = [
    Row {
        text: b"4'd9\n",
        told: (4, false, 9),
    },
    Row {
        text: b"P\n",
        told: (32, true, 3),
    },
    Row {
        text: b"4'd15 + 4'd1\n",
        told: (4, false, 0),
    },
    Row {
        text: b"4'd15 + 5'd1\n",
        told: (5, false, 16),
    },
    Row {
        text: b"Q + 8'd1\n",
        told: (8, false, 16),
    },
    Row {
        text: b"Q + 8'sd1\n",
        told: (8, true, 0),
    },
    Row {
        text: b"-Q\n",
        told: (4, true, 1),
    },
    Row {
        text: b"~4'd5\n",
        told: (4, false, 10),
    },
    Row {
        text: b"!4'd5\n",
        told: (1, false, 0),
    },
    Row {
        text: b"&Q\n",
        told: (1, false, 1),
    },
    Row {
        text: b"^4'd7\n",
        told: (1, false, 1),
    },
    Row {
        text: b"-8'sd7 / 8'sd2\n",
        told: (8, true, 253),
    },
    Row {
        text: b"-8'sd7 % 8'sd2\n",
        told: (8, true, 255),
    },
    Row {
        text: b"8'd7 / 8'd0\n",
        told: (8, false, 0),
    },
    Row {
        text: b"-8'sd1 >>> 1\n",
        told: (8, true, 255),
    },
    Row {
        text: b"-8'sd1 >>> 1 | 8'd0\n",
        told: (8, false, 127),
    },
    Row {
        text: b"8'd1 << 3 << 1\n",
        told: (8, false, 16),
    },
    Row {
        text: b"(4'd15 + 4'd1) >> 1\n",
        told: (4, false, 0),
    },
    Row {
        text: b"8'd0 | (4'd15 + 4'd1) >> 1\n",
        told: (8, false, 8),
    },
    Row {
        text: b"Q < 4'sd0\n",
        told: (1, false, 1),
    },
];

static OTHERS: [Row; 19] = [
    Row {
        text: b"Q < 4'd0\n",
        told: (1, false, 0),
    },
    Row {
        text: b"Q == 8'sd255\n",
        told: (1, false, 1),
    },
    Row {
        text: b"3 > 2 > 1\n",
        told: (1, false, 0),
    },
    Row {
        text: b"2 == 2 == 1\n",
        told: (1, false, 1),
    },
    Row {
        text: b"1 && 2 || 0\n",
        told: (1, false, 1),
    },
    Row {
        text: b"{4'd1, 8'd2}\n",
        told: (12, false, 258),
    },
    Row {
        text: b"{2{4'd1, 4'd2}}\n",
        told: (16, false, 4626),
    },
    Row {
        text: b"{P{2'd1}}\n",
        told: (6, false, 21),
    },
    Row {
        text: b"1 ? 4'd2 : 8'd3\n",
        told: (8, false, 2),
    },
    Row {
        text: b"0 ? 4'sd2 : 1 ? Q : 8'sd3\n",
        told: (8, true, 255),
    },
    Row {
        text: b"$clog2(0)\n",
        told: (32, true, 0),
    },
    Row {
        text: b"$clog2(1)\n",
        told: (32, true, 0),
    },
    Row {
        text: b"$clog2(5)\n",
        told: (32, true, 3),
    },
    Row {
        text: b"$clog2(8)\n",
        told: (32, true, 3),
    },
    Row {
        text: b"$clog2(128'hffffffffffffffffffffffffffffffff)\n",
        told: (32, true, 128),
    },
    Row {
        text: b"8 - 3 - 2\n",
        told: (32, true, 3),
    },
    Row {
        text: b"100 / 7 * 7 % 5\n",
        told: (32, true, 3),
    },
    Row {
        text: b"{1'b1}\n",
        told: (1, false, 1),
    },
    Row {
        text: b"8'hf0 & 8'h3c ^ 8'hff | 1\n",
        told: (32, false, 207),
    },
];

static BAD: [(&[u8], u32); 14] = [
    (b"a\n", 0),
    (b"a + 1\n", 0),
    (b"f(1)\n", 0),
    (b"$signed(4'd1)\n", 0),
    (b"P[0]\n", 0),
    (b"{0{1'b1}}\n", 0),
    (b"{129{1'b1}}\n", 0),
    (b"{2{65'd1}}\n", 0),
    (b"{-1{1'b1}}\n", 0),
    (b"x\n", 0),
    (b"4'd1 + x\n", 0),
    (b"{65'd1, 64'd1}\n", 0),
    (b"1 ? a : 2\n", 0),
    (b"{Q{1'b1}}\n", 0),
];

// What a text is worth.
fn worth(alloc: Global, text: &[u8]) -> Result<Result<Constant, StaticFault>, Fail> {
    if text.len() > 1_000_000 {
        return Err("a long text".into());
    }
    let clean = preprocess(alloc, text)?;
    let tokens = lex(alloc, &clean)?;
    let (expr, _) = parse_expr(alloc, &tokens, 0)?;
    Ok(constant(alloc, &Sample, &expr))
}

// The number of the first row that is answered otherwise.
fn first_wrong(alloc: Global, rows: &[Row]) -> Result<Option<usize>, Fail> {
    for (k, row) in rows.iter().enumerate() {
        let told = match worth(alloc, row.text)? {
            Ok(number) => (number.bits.width(), number.signed, number.bits.value()),
            Err(_) => (0, false, 0),
        };
        if told != row.told {
            return Ok(Some(k));
        }
    }
    Ok(None)
}

#[test]
fn operators_give_their_values(rt: HostRuntime) -> Result<(), Fail> {
    assert_eq!(rt; first_wrong(rt.alloc(), &OPERATORS)?, None);
    Ok(())
}

#[test]
fn braces_choices_and_chains_give_their_values(rt: HostRuntime) -> Result<(), Fail> {
    assert_eq!(rt; first_wrong(rt.alloc(), &OTHERS)?, None);
    Ok(())
}

#[test]
fn what_is_no_constant_is_told(rt: HostRuntime) -> Result<(), Fail> {
    for (text, token) in BAD {
        let Err(StaticFault::At { phase, place, kind }) = worth(rt.alloc(), text)? else {
            return Err("a constant".into());
        };
        assert_eq!(rt;
            (phase, place.token, kind),
            (4, Some(token), FaultKind::NotConstant)
        );
    }
    Ok(())
}
