//! Random expressions of all operators, with what Icarus Verilog says that they are worth: `python3 bench/expressions.py --table 100 --seed 5`.

use crate::sample::Sample;
use crate::worth::worth;
use std::alloc::Global;
use std::test::Fail;

struct Row {
    /// How many bits the vector has that takes the value.
    context: u32,
    text: &'static [u8],
    value: u128,
}

// Whether each row is worth its value.
fn are_right(alloc: Global, rows: &[Row]) -> Result<bool, Fail> {
    let names = Sample { values: &VALUES };
    for row in rows {
        if worth(alloc, &names, row.text, row.context)? != Some(row.value) {
            return Ok(false);
        }
    }
    Ok(true)
}

#[test]
fn random_expressions_are_worth_what_icarus_says(rt: HostRuntime) -> Result<(), Fail> {
    assert!(rt; are_right(rt.alloc(), &ROWS_0)?);
    assert!(rt; are_right(rt.alloc(), &ROWS_1)?);
    assert!(rt; are_right(rt.alloc(), &ROWS_2)?);
    assert!(rt; are_right(rt.alloc(), &ROWS_3)?);
    assert!(rt; are_right(rt.alloc(), &ROWS_4)?);
    Ok(())
}

static VALUES: [u128; 44] = [
    0x1,
    0x1,
    0x0,
    0x1,
    0xc2,
    0x6,
    0xff,
    0x1,
    0x24d4,
    0x0,
    0x1,
    0x1,
    0x100000000,
    0xffffffffffffffff,
    0xffffffffffffffff,
    0x17b3120df2f4d4c86,
    0x8000000000000000000000000,
    0x80000000000000000000000000000000,
    0xffffffffffffffffffffffffffffffff,
    0xffffffff,
    0x28,
    0x80,
    0x0,
    0x1,
    0x80,
    0x0,
    0xff,
    0x42,
    0x0,
    0xff,
    0x80,
    0x80,
    0x80,
    0xff,
    0x80,
    0x80,
    0x1,
    0x1ffffffff,
    0x1ffffffff,
    0x1ffffffff,
    0x1f20f678d,
    0x1ffffffff,
    0x1abf0ca69,
    0x1590ef594,
];

static ROWS_0: [Row; 20] = [
    Row {
        context: 32,
        text: b"2\n",
        value: 0x2,
    },
    Row {
        context: 16,
        text: b"s1[s2 - s2] * (s7 && 2'h1) * s12\n",
        value: 0x0,
    },
    Row {
        context: 1,
        text: b"(((2'sb10 || m1[s4]) / (64'b1 <= s0)) << (s3 ^ 1)) == ((|32'sd0) ^ s8)\n",
        value: 0x0,
    },
    Row {
        context: 1,
        text: b"$signed(s15 % s19)\n",
        value: 0x0,
    },
    Row {
        context: 128,
        text: b"R != 8'sh1\n",
        value: 0x1,
    },
    Row {
        context: 32,
        text: b"Q ? $signed(s0) : (P & 2 & s15[s6])\n",
        value: 0x1,
    },
    Row {
        context: 64,
        text: b"2'b0\n",
        value: 0x0,
    },
    Row {
        context: 32,
        text: b"s10\n",
        value: 0x1,
    },
    Row {
        context: 64,
        text: b"(65'b0 + 33'sh1) * (64'sb0 && 32'b0) * (65'sd1 == s7)\n",
        value: 0x0,
    },
    Row {
        context: 8,
        text: b"s14[8'sd5 +: 24]\n",
        value: 0xff,
    },
    Row {
        context: 65,
        text: b"0\n",
        value: 0x0,
    },
    Row {
        context: 33,
        text: b"31 >= s5\n",
        value: 0x1,
    },
    Row {
        context: 1,
        text: b"s8[2]\n",
        value: 0x1,
    },
    Row {
        context: 32,
        text: b"(-(s16 >>> (s4 | s1))) - 0\n",
        value: 0x1,
    },
    Row {
        context: 16,
        text: b"{{s2} >> (s0)}\n",
        value: 0x0,
    },
    Row {
        context: 32,
        text: b"s2\n",
        value: 0x0,
    },
    Row {
        context: 64,
        text: b"3 * (&1)\n",
        value: 0x0,
    },
    Row {
        context: 1,
        text: b"s0\n",
        value: 0x1,
    },
    Row {
        context: 2,
        text: b"$signed(-2'sb0)\n",
        value: 0x0,
    },
    Row {
        context: 32,
        text: b"~((s0 ? s12 : 5'h10) ^ g(7))\n",
        value: 0xfffffffa,
    },
];

static ROWS_1: [Row; 20] = [
    Row {
        context: 8,
        text: b"{(s4 >>> (s1 - 1) >> (s1 - s5)) << (Q)}\n",
        value: 0x0,
    },
    Row {
        context: 65,
        text: b"s5\n",
        value: 0x6,
    },
    Row {
        context: 8,
        text: b"s13\n",
        value: 0xff,
    },
    Row {
        context: 16,
        text: b"s11[29:8]\n",
        value: 0x0,
    },
    Row {
        context: 33,
        text: b"2'sb1 - s6 - 100'sb0\n",
        value: 0x2,
    },
    Row {
        context: 32,
        text: b"&(5'd0 ^ (~^P))\n",
        value: 0x0,
    },
    Row {
        context: 65,
        text: b"s11 == R\n",
        value: 0x0,
    },
    Row {
        context: 1,
        text: b"64'sd18446744073709551615\n",
        value: 0x1,
    },
    Row {
        context: 64,
        text: b"P ? ((100'b1 % R) <<< f(s18, 33'sd4294967296)) : s3\n",
        value: 0x0,
    },
    Row {
        context: 8,
        text: b"{8{s2, ~^s5}}\n",
        value: 0x21,
    },
    Row {
        context: 65,
        text: b"$unsigned(32'sb1001110011100001110010110101000 % 8'h80)\n",
        value: 0x28,
    },
    Row {
        context: 65,
        text: b"s8[5]\n",
        value: 0x0,
    },
    Row {
        context: 8,
        text: b"{2{s17[s1 -: 19], 31'h1, R}}\n",
        value: 0xc8,
    },
    Row {
        context: 1,
        text: b"|$signed(s10)\n",
        value: 0x1,
    },
    Row {
        context: 65,
        text: b"-s15\n",
        value: 0x84cedf20d0b2b37a,
    },
    Row {
        context: 4,
        text: b"s15\n",
        value: 0x6,
    },
    Row {
        context: 8,
        text: b"s2\n",
        value: 0x0,
    },
    Row {
        context: 4,
        text: b"31'h0 - (~|8'sd233)\n",
        value: 0x0,
    },
    Row {
        context: 16,
        text: b"$signed({s14, P, s8})\n",
        value: 0x24d4,
    },
    Row {
        context: 33,
        text: b"~s19\n",
        value: 0x100000000,
    },
];

static ROWS_2: [Row; 20] = [
    Row {
        context: 33,
        text: b"s5\n",
        value: 0x6,
    },
    Row {
        context: 16,
        text: b"s4[s1 | s1 -: 2]\n",
        value: 0x2,
    },
    Row {
        context: 65,
        text: b"+((1 != m0[13]) ~^ (32'b10000000000000000000000000000000 == s9))\n",
        value: 0x1fffffffffffffffe,
    },
    Row {
        context: 16,
        text: b"$signed(-s7)\n",
        value: 0xffff,
    },
    Row {
        context: 4,
        text: b"65'd1\n",
        value: 0x1,
    },
    Row {
        context: 32,
        text: b"s16[19]\n",
        value: 0x0,
    },
    Row {
        context: 1,
        text: b"{s11}\n",
        value: 0x1,
    },
    Row {
        context: 32,
        text: b"32\n",
        value: 0x20,
    },
    Row {
        context: 8,
        text: b"{s17}\n",
        value: 0x0,
    },
    Row {
        context: 1,
        text: b"f(7 <= s9[9], s18[8'sd5])\n",
        value: 0x1,
    },
    Row {
        context: 16,
        text: b"{s19 <= s5, s8[9:1]}\n",
        value: 0x6a,
    },
    Row {
        context: 65,
        text: b"s16[72:30] ? ((32'sd1 - s4 - s3[s2 +: 8]) - s11[31 -: 11]) : {8'b1 || s2}\n",
        value: 0x1,
    },
    Row {
        context: 8,
        text: b"(7 - Q) - (s15 == 65'sd0)\n",
        value: 0xf8,
    },
    Row {
        context: 64,
        text: b"({2{1, m1[s2][35 -: 10]}} || (s9 ? Q : 2'd2)) >>> (s6)\n",
        value: 0x0,
    },
    Row {
        context: 32,
        text: b"~^32'sh1\n",
        value: 0x0,
    },
    Row {
        context: 33,
        text: b"{s13, 1'sd0}\n",
        value: 0x1fffffffe,
    },
    Row {
        context: 65,
        text: b"s8[15:4]\n",
        value: 0x24d,
    },
    Row {
        context: 128,
        text: b"~((5'sh1 != 32'sd1) >>> (s1))\n",
        value: 0xffffffffffffffffffffffffffffffff,
    },
    Row {
        context: 32,
        text: b"+(|s1)\n",
        value: 0x1,
    },
    Row {
        context: 1,
        text: b"&(s1[34 -: 1] <<< (s6))\n",
        value: 0x0,
    },
];

static ROWS_3: [Row; 20] = [
    Row {
        context: 4,
        text: b"{{s9[31:4]} + m0[s1 + s0]}\n",
        value: 0x0,
    },
    Row {
        context: 16,
        text: b"f(s7, s0)\n",
        value: 0x2,
    },
    Row {
        context: 4,
        text: b"$clog2((P ? s8 : s14) >>> (s3))\n",
        value: 0xd,
    },
    Row {
        context: 128,
        text: b"^s2\n",
        value: 0x0,
    },
    Row {
        context: 65,
        text: b"2'sh0\n",
        value: 0x0,
    },
    Row {
        context: 65,
        text: b"((s9 !== 3) << (s0)) >= $signed(s4[5:2] * s6 * s6)\n",
        value: 0x1,
    },
    Row {
        context: 1,
        text: b"(s19 >> (8'sd5)) != (s16 < s9[27:18]) == $clog2(R)\n",
        value: 0x0,
    },
    Row {
        context: 1,
        text: b"$clog2($unsigned(s5))\n",
        value: 0x1,
    },
    Row {
        context: 65,
        text: b"s12[2 +: 8]\n",
        value: 0x0,
    },
    Row {
        context: 16,
        text: b"s6 | s5\n",
        value: 0xff,
    },
    Row {
        context: 1,
        text: b"s13[4 +: 6]\n",
        value: 0x1,
    },
    Row {
        context: 4,
        text: b"g(5'h6)\n",
        value: 0x5,
    },
    Row {
        context: 65,
        text: b"(2'sb1 - s6) + s2\n",
        value: 0x2,
    },
    Row {
        context: 128,
        text: b"P\n",
        value: 0x3,
    },
    Row {
        context: 8,
        text: b"P\n",
        value: 0x3,
    },
    Row {
        context: 65,
        text: b"s7[7:5]\n",
        value: 0x0,
    },
    Row {
        context: 32,
        text: b"$signed(~^{1{819774589}})\n",
        value: 0xffffffff,
    },
    Row {
        context: 1,
        text: b"s7[s2] >>> (s3 | s2)\n",
        value: 0x0,
    },
    Row {
        context: 1,
        text: b"(32'd4294967295 ? Q : s19[9]) || g(s4)\n",
        value: 0x1,
    },
    Row {
        context: 16,
        text: b"$unsigned(-128'd170141183460469231731687303715884105728)\n",
        value: 0x0,
    },
];

static ROWS_4: [Row; 20] = [
    Row {
        context: 1,
        text: b"s2[s3]\n",
        value: 0x0,
    },
    Row {
        context: 32,
        text: b"0\n",
        value: 0x0,
    },
    Row {
        context: 4,
        text: b"~^s9\n",
        value: 0x1,
    },
    Row {
        context: 65,
        text: b"~$signed(s11 ? 0 : s2)\n",
        value: 0x1ffffffffffffffff,
    },
    Row {
        context: 8,
        text: b"s17 > s18[s2 +: 2]\n",
        value: 0x1,
    },
    Row {
        context: 4,
        text: b"s8[s1 +: 15] <<< (-s8[11:8])\n",
        value: 0x0,
    },
    Row {
        context: 1,
        text: b"s7[12:4]\n",
        value: 0x0,
    },
    Row {
        context: 8,
        text: b"16'sd33767 - 8'd255\n",
        value: 0xe8,
    },
    Row {
        context: 16,
        text: b"s14[17]\n",
        value: 0x1,
    },
    Row {
        context: 4,
        text: b"m0[s3][3:0] ^ (~s2)\n",
        value: 0xf,
    },
    Row {
        context: 4,
        text: b"4'sd8\n",
        value: 0x8,
    },
    Row {
        context: 65,
        text: b"{1{31'sh197d7b2f, 33'sh0}} ? $unsigned(s17[s2]) : (s3 == s15[s6 +: 21])\n",
        value: 0x0,
    },
    Row {
        context: 8,
        text: b"~(8'd1 || s2)\n",
        value: 0xfe,
    },
    Row {
        context: 8,
        text: b"~^s3\n",
        value: 0x0,
    },
    Row {
        context: 4,
        text: b"s18 ~^ 2 ^ 2'sd0\n",
        value: 0x2,
    },
    Row {
        context: 33,
        text: b"(s7 & s17 & 5'sh10) ? s9[13 +: 22] : {s3, s8}\n",
        value: 0x124d4,
    },
    Row {
        context: 16,
        text: b"(m0[14][s3] >>> (s2)) - s19[22]\n",
        value: 0xffff,
    },
    Row {
        context: 33,
        text: b"f(s14 ? s7[5:4] : (s7[8'sd5 -: 14] ? P : R), 33'h1a1a7ed24)\n",
        value: 0x1fffffd24,
    },
    Row {
        context: 8,
        text: b"s7 ? 2'sb10 : s7\n",
        value: 0x2,
    },
    Row {
        context: 65,
        text: b"s3 >>> (s2 ^ 1)\n",
        value: 0x0,
    },
];
