//! What no clause says: that a run and its window come to an end at all.

ghost use Rattle.std.specs.Prelude.{◌≡◌, ◌≤◌, ◌<◌, length, IfOk};
ghost use Rattle.net_compile.specs.Cycle.{RowFits};

use crate::counter::counter;
use dt_core::limits::MAX_LAG;
use dt_io::memory::MemSink;
use flat_sim::steps::Steps;
use netlist::flat::Flat;
use std::alloc::Global;
use std::marker::Brand;
use std::process::Abort;
use std::sync::ledger::{Blank, Ledger};
use std::test::*;
use window_run::run::Run;

const HEADER: &[u8] = b"$version dessert 1 $end
$timescale 1 ns $end
$scope module cnt $end
$var wire 1 ! clk $end
$var wire 1 \" hold $end
$var reg 4 # r $end
$var wire 8 $ w $end
$upscope $end
$enddefinitions $end
";

// The window of the failure in cycle 9 under the lag 2. The word `m[0]` changes before cycle 9.
const THREE: &[u8] = b"#14
$dumpvars
0!
0\"
b0111 #
b01000100 $
$end
#15
1!
#16
0!
b1000 #
#17
1!
#18
0!
b1001 #
b10001000 $
#19
1!
";

// The same under the lag 0.
const ONE: &[u8] = b"#18
$dumpvars
0!
0\"
b1001 #
b10001000 $
$end
#19
1!
";

// A row in which each input is 0.
fn zeros(alloc: Global, flat: &Flat) -> Result<Vec<u128>, Fail>
    ensures count { IfOk result (λ row. length row.items ≡ length flat.now.inputs) }
    ensures fits { IfOk result (λ row. RowFits flat.now row.items) }
{
    Ok(vec![in alloc; 0u128; flat.inputs().len()]?)
}

// Runs the counter over so many rows, and writes the window of its failure. The answer has the failure's cycle, if there is
// one, and what was written.
fn window_of<L: Ledger>(
    alloc: Global,
    flat: &Flat,
    count: u32,
    lag: u32,
    blank: Blank,
) -> Result<(Option<u64>, MemSink), Fail>
    requires lag { lag ≤ MAX_LAG }
    requires name { blank.name ≡ L.name }
    requires parts { (blank.parts ≡ L.parts) × (0 < blank.parts) }
{
    let mut out = MemSink::new(alloc, 2_000, 2_000, Vec::new(alloc))?;
    let mut steps = Steps::<L>::new(blank);
    let row = zeros(alloc, flat)?;
    let Ok(order) = comb_order::order(alloc, flat) else {
        return Ok((None, out));
    };
    let mut run = Run::start(alloc, flat, order.parts(), lag)?;
    for _ in 0..count {
        run.take(alloc, &row, &mut steps)?;
    }
    let Some(failure) = run.failure() else {
        return Ok((None, out));
    };
    let cycle = failure.cycle;
    run.write_window(alloc, &mut out, &mut steps)?;
    Ok((Some(cycle), out))
}

#[test]
fn a_window_is_reached_by_going_back(rt: HostRuntime) -> Result<(), Fail> {
    has_window::<_, Brand>(&rt, rt.alloc(), 2, THREE, Blank::new(1))
}

#[test]
fn a_window_is_the_failure_alone(rt: HostRuntime) -> Result<(), Fail> {
    has_window::<_, Brand>(&rt, rt.alloc(), 0, ONE, Blank::new(1))
}

// The counter's window under a lag has these lines behind the header.
fn has_window<R: Abort, L: Ledger>(
    rt: &R,
    alloc: Global,
    lag: u32,
    lines: &[u8],
    blank: Blank,
) -> Result<(), Fail>
    requires lag { lag ≤ MAX_LAG }
    requires name { blank.name ≡ L.name }
    requires parts { (blank.parts ≡ L.parts) × (0 < blank.parts) }
{
    let found = counter(alloc)?;
    assert!(rt; found.is_some());
    if let Some(flat) = found {
        let (cycle, out) = window_of::<L>(alloc, &flat, 12, lag, blank)?;
        assert_eq!(rt; cycle, Some(9));
        let written = out.bytes();
        assert!(rt; written.starts_with(HEADER) && written.ends_with(lines));
        assert_eq!(rt; written.len(), HEADER.len() + lines.len());
    }
    Ok(())
}

#[test]
fn nothing_fires_in_nine_rows(rt: HostRuntime) -> Result<(), Fail> {
    is_quiet::<_, Brand>(&rt, rt.alloc(), Blank::new(1))
}

fn is_quiet<R: Abort, L: Ledger>(rt: &R, alloc: Global, blank: Blank) -> Result<(), Fail>
    requires name { blank.name ≡ L.name }
    requires parts { (blank.parts ≡ L.parts) × (0 < blank.parts) }
{
    let found = counter(alloc)?;
    assert!(rt; found.is_some());
    if let Some(flat) = found {
        let (cycle, out) = window_of::<L>(alloc, &flat, 9, 2, blank)?;
        assert_eq!(rt; cycle, None);
        assert_eq!(rt; out.bytes().len(), 0);
    }
    Ok(())
}
