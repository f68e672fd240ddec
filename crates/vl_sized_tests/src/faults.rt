//! Expressions with their fault of phase 6, and the token at which it stands.

use crate::sample::Sample;
use crate::worth::sized;
use std::test::Fail;
use vl_tree::fault::{FaultKind, StaticFault};

static NAMES: [(&[u8], u32, FaultKind); 12] = [
    (b"x\n", 0, FaultKind::UnknownName),
    (b"s1 + x\n", 2, FaultKind::UnknownName),
    (b"x[1] + y\n", 0, FaultKind::UnknownName),
    (b"h(1)\n", 0, FaultKind::UnknownName),
    (b"f(x, h(1))\n", 2, FaultKind::UnknownName),
    (b"(s1 ? x : {0{s1}})\n", 3, FaultKind::UnknownName),
    (b"s1(1)\n", 0, FaultKind::BadCall),
    (b"f(1)\n", 0, FaultKind::BadCall),
    (b"f(s3, s3, s3)\n", 0, FaultKind::BadCall),
    (b"g(1, 2)\n", 0, FaultKind::BadCall),
    (b"f\n", 0, FaultKind::BadCall),
    (b"P[0]\n", 0, FaultKind::BadSelect),
];

static SELECTS: [(&[u8], u32, FaultKind); 13] = [
    (b"m0\n", 0, FaultKind::BadSelect),
    (b"m0[1][2][3]\n", 0, FaultKind::BadSelect),
    (b"m0[3:0]\n", 0, FaultKind::BadSelect),
    (b"s3[0:7]\n", 0, FaultKind::BadSelect),
    (b"s5[7:0]\n", 0, FaultKind::BadSelect),
    (b"s5[3:3] + s5[4:3]\n", 7, FaultKind::BadSelect),
    (b"s3[1][0]\n", 0, FaultKind::BadSelect),
    (b"s3[s1:0]\n", 2, FaultKind::NotConstant),
    (b"s3[s1:s2]\n", 2, FaultKind::NotConstant),
    (b"s3[0 +: s1]\n", 4, FaultKind::NotConstant),
    (b"s3[200:1]\n", 0, FaultKind::TooWide),
    (b"s17[0 +: 129]\n", 0, FaultKind::TooWide),
    (b"s3[0 +: 0]\n", 0, FaultKind::ZeroReplication),
];

static BRACES: [(&[u8], u32, FaultKind); 9] = [
    (b"{s1{s2}}\n", 1, FaultKind::NotConstant),
    (b"{s17, s0}\n", 0, FaultKind::TooWide),
    (b"{65'd1, 64'd1}\n", 0, FaultKind::TooWide),
    (b"{2{s15}}\n", 0, FaultKind::TooWide),
    (b"{17{s3}}\n", 0, FaultKind::TooWide),
    (b"{0{s1}}\n", 0, FaultKind::ZeroReplication),
    (b"{-1{s1}}\n", 0, FaultKind::ZeroReplication),
    (b"{0{x}} + y\n", 0, FaultKind::ZeroReplication),
    (b"{s17, x, s0}\n", 3, FaultKind::UnknownName),
];

// Whether each of these is told at its token.
fn are_told(rt: &HostRuntime, rows: &[(&[u8], u32, FaultKind)]) -> Result<bool, Fail> {
    let names = Sample { values: &[] };
    for (text, token, kind) in rows {
        let told = match sized(rt.alloc(), &names, text, 8)? {
            Err(StaticFault::At { phase, place, kind }) => (phase, place.token, kind),
            _ => return Ok(false),
        };
        if told != (6, Some(*token), *kind) {
            return Ok(false);
        }
    }
    Ok(true)
}

#[test]
fn faults_are_told_at_their_tokens(rt: HostRuntime) -> Result<(), Fail> {
    assert!(rt; are_told(&rt, &NAMES)?);
    assert!(rt; are_told(&rt, &SELECTS)?);
    assert!(rt; are_told(&rt, &BRACES)?);
    Ok(())
}
