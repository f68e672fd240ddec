//! What no clause says: that a waveform is written at all, with one call of the sink for the header and one for each cycle.
//! The sink fails in the call that is one too many.

ghost use Rattle.std.specs.Prelude.{◌<◌};

use crate::draft::{ScopeRow, SignalRow, design};
use crate::names::{SCOPES, SIGNALS, STOPS};
use dt_io::memory::MemSink;
use netlist::design::{Role, ScopeKind, SignalKind};
use netlist::flat::Flat;
use std::alloc::Global;
use std::test::*;
use waveform::writer::VcdWriter;

static COUNTER: [ScopeRow; 1] = [ScopeRow {
    parent: None,
    kind: ScopeKind::Instance,
    name: b"cnt",
}];

static COUNTED: [SignalRow; 4] = [
    SignalRow {
        scope: Some(0),
        name: b"clk",
        kind: SignalKind::Wire,
        width: 1,
        role: Role::Clock,
    },
    SignalRow {
        scope: Some(0),
        name: b"rst",
        kind: SignalKind::Wire,
        width: 1,
        role: Role::Input(0),
    },
    SignalRow {
        scope: Some(0),
        name: b"en",
        kind: SignalKind::Wire,
        width: 1,
        role: Role::Input(1),
    },
    SignalRow {
        scope: Some(0),
        name: b"r",
        kind: SignalKind::Reg,
        width: 4,
        role: Role::Inner,
    },
];

const WINDOW: &[u8] = b"$version dessert 1 $end
$timescale 1 ns $end
$scope module cnt $end
$var wire 1 ! clk $end
$var wire 1 \" rst $end
$var wire 1 # en $end
$var reg 4 $ r $end
$upscope $end
$enddefinitions $end
#16
$dumpvars
0!
0\"
1#
b1000 $
$end
#17
1!
#18
0!
b1001 $
#19
1!
";

const NESTED: &[u8] = b"$version dessert 1 $end
$timescale 1 ns $end
$scope module top $end
$var wire 1 ! clk $end
$var wire 2 \" a+b $end
$scope module u $end
$var wire 1 # c $end
$scope begin g[-1] $end
$var reg 128 $ r $end
$upscope $end
$upscope $end
$scope module v $end
$var integer 32 % i $end
$upscope $end
$upscope $end
$enddefinitions $end
#0
$dumpvars
0!
b10 \"
0#
b11111111111111111111111111111111111111111111111111111111111111111111111111111111111111111111111111111111111111111111111111111110 $
b00000000000000000000000000000101 %
$end
#1
1!
1#
#2
0!
0#
b00000000000000000000000000000100 %
#3
1!
1#
";

// The text of two cycles, the first of which is given.
fn two_cycles(
    alloc: Global,
    flat: &Flat,
    first: u64,
    one: &[u128],
    two: &[u128],
    room: u64,
) -> Result<MemSink, Fail>
    requires { first < 1000 }
{
    let mut out = MemSink::new(alloc, room, 2_000, [4].to_vec(alloc)?)?;
    let mut writer = VcdWriter::new(alloc, flat)?;
    let variables = writer.shown().len();
    writer.header(&mut out)?;
    if one.len() == variables && two.len() == variables {
        writer.cycle(&mut out, first, one)?;
        writer.cycle(&mut out, first + 1, two)?;
    }
    Ok(out)
}

#[test]
fn a_counter_has_its_window(rt: HostRuntime) -> Result<(), Fail> {
    let alloc: Global = rt.alloc();
    let found = design(alloc, &COUNTER, &COUNTED, &[1, 2], &[])?;
    assert!(rt; found.is_some());
    if let Some(flat) = found {
        let out = two_cycles(alloc, &flat, 8, &[0, 0, 1, 8], &[0, 0, 1, 9], 1_000)?;
        assert_eq!(rt; out.faults(), 0);
        assert_eq!(rt; out.bytes(), WINDOW);
    }
    Ok(())
}

#[test]
fn scopes_stand_within_scopes(rt: HostRuntime) -> Result<(), Fail> {
    let alloc: Global = rt.alloc();
    let found = design(alloc, &SCOPES, &SIGNALS, &[2], &STOPS)?;
    assert!(rt; found.is_some());
    if let Some(flat) = found {
        let wide = u128::MAX - 1;
        let out = two_cycles(
            alloc,
            &flat,
            0,
            &[0, 2, 0, wide, 5],
            &[0, 2, 0, wide, 4],
            2_000,
        )?;
        assert_eq!(rt; out.faults(), 0);
        assert_eq!(rt; out.bytes(), NESTED);
    }
    Ok(())
}
