//! Modules that stand alone, with the token and the kind of their least fault of phase 5.

use crate::read::{Row, declared_by, is_told, source_of};
use std::alloc::Global;
use std::test::Fail;
use vl_connections::top_fault;
use vl_tree::fault::FaultKind;

static NAMES: [Row; 8] = [
    Row {
        text: b"module t(input a, output b); wire c; reg d; endmodule\n",
        fault: None,
    },
    Row {
        text: b"module t; wire a; reg a; endmodule\n",
        fault: Some((7, FaultKind::Duplicate)),
    },
    Row {
        text: b"module t(a); output a; reg a; wire a; endmodule\n",
        fault: Some((13, FaultKind::Duplicate)),
    },
    Row {
        text: b"module t; parameter P = 1; localparam P = 2; endmodule\n",
        fault: Some((9, FaultKind::Duplicate)),
    },
    Row {
        text: b"module t; function f; input f; f = 0; endfunction endmodule\n",
        fault: Some((7, FaultKind::Duplicate)),
    },
    Row {
        text: b"module t; wire a, a; wire [200:0] b; endmodule\n",
        fault: Some((6, FaultKind::Duplicate)),
    },
    Row {
        text: b"module t(a, a); input a; endmodule\n",
        fault: Some((5, FaultKind::Duplicate)),
    },
    Row {
        text: b"module t; genvar g; integer g; endmodule\n",
        fault: Some((7, FaultKind::Duplicate)),
    },
];

static RANGES: [Row; 6] = [
    Row {
        text: b"module t; wire [127:0] a; reg m [1048575:0]; endmodule\n",
        fault: None,
    },
    Row {
        text: b"module t; wire [128:0] a; endmodule\n",
        fault: Some((9, FaultKind::TooWide)),
    },
    Row {
        text: b"module t; wire [65536:65530] a; endmodule\n",
        fault: Some((5, FaultKind::BadRange)),
    },
    Row {
        text: b"module t; wire [0:-1] a; endmodule\n",
        fault: Some((7, FaultKind::BadRange)),
    },
    Row {
        text: b"module t; reg m [0:1048576]; endmodule\n",
        fault: Some((8, FaultKind::BadRange)),
    },
    Row {
        text: b"module t; function [200:0] f; input a; f = 0; endfunction endmodule\n",
        fault: Some((9, FaultKind::TooWide)),
    },
];

static PORTS: [Row; 6] = [
    Row {
        text: b"module t(a); output [3:0] a; reg [3:0] a; endmodule\n",
        fault: None,
    },
    Row {
        text: b"module t(a); output [3:0] a; reg [2:0] a; endmodule\n",
        fault: Some((20, FaultKind::BadPort)),
    },
    Row {
        text: b"module t(a); input a; reg a; endmodule\n",
        fault: Some((10, FaultKind::BadPort)),
    },
    Row {
        text: b"module t(input reg a); endmodule\n",
        fault: Some((5, FaultKind::BadPort)),
    },
    Row {
        text: b"module t(a); endmodule\n",
        fault: Some((3, FaultKind::BadPort)),
    },
    Row {
        text: b"module t(a); wire a; input a; endmodule\n",
        fault: None,
    },
];

// Whether each module has its fault.
fn are_told(alloc: Global, rows: &[Row]) -> Result<bool, Fail> {
    for row in rows {
        let source = source_of(alloc, row.text)?;
        let Some(parent) = source.modules.as_slice().first() else {
            return Ok(false);
        };
        let declared = declared_by(alloc, parent)?;
        let found = top_fault(alloc, declared.as_slice(), parent)?;
        if !is_told(found, row) {
            return Ok(false);
        }
    }
    Ok(true)
}

#[test]
fn repeated_names_are_told(rt: HostRuntime) -> Result<(), Fail> {
    assert!(rt; are_told(rt.alloc(), &NAMES)?);
    Ok(())
}

#[test]
fn bad_ranges_are_told(rt: HostRuntime) -> Result<(), Fail> {
    assert!(rt; are_told(rt.alloc(), &RANGES)?);
    Ok(())
}

#[test]
fn bad_ports_are_told(rt: HostRuntime) -> Result<(), Fail> {
    assert!(rt; are_told(rt.alloc(), &PORTS)?);
    Ok(())
}
