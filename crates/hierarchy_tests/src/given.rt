//! An instance of the first module in the second, with the fault of the values that it gives to parameters.

use crate::read::{Row, is_told, source_of};
use std::alloc::{AllocError, Global};
use std::test::Fail;
use vl_found::Found;
use vl_frames::frames::Frames;
use vl_parameters::given::given_by;
use vl_tree::fault::FaultKind;
use vl_tree::item::{Item, Module, Source};

static ROWS: [Row; 7] = [
    Row {
        text: b"module c; parameter P = 1; endmodule module t; c #(2) u(); endmodule\n",
        fault: None,
    },
    Row {
        text: b"module c; parameter P = 1; endmodule module t; c #(1, 2) u(); endmodule\n",
        fault: Some((17, FaultKind::UnknownParameter)),
    },
    Row {
        text: b"module c; parameter P = 1; endmodule module t; c #(.Q(1)) u(); endmodule\n",
        fault: Some((16, FaultKind::UnknownParameter)),
    },
    Row {
        text: b"module c; parameter P = 1; endmodule module t; c #(.P(1), .P(2)) u(); endmodule\n",
        fault: Some((22, FaultKind::UnknownParameter)),
    },
    Row {
        text: b"module c; localparam P = 1; endmodule module t; c #(.P(1)) u(); endmodule\n",
        fault: Some((16, FaultKind::UnknownParameter)),
    },
    Row {
        text: b"module c; parameter P = 1; endmodule module t; c #(x) u(); endmodule\n",
        fault: Some((15, FaultKind::NotConstant)),
    },
    Row {
        text: b"module c #(parameter A = 1, B = 2); endmodule module t; c #(.B(), .A(3)) u(); endmodule\n",
        fault: None,
    },
];

// The fault of the values that the first item of the second module gives to the first module.
fn fault_in(alloc: Global, source: &Source) -> Result<Option<Found>, AllocError> {
    match source.modules.as_slice() {
        [child, parent] => fault_of(alloc, child, parent),
        _ => Ok(None),
    }
}

fn fault_of(alloc: Global, child: &Module, parent: &Module) -> Result<Option<Found>, AllocError> {
    let frames = Frames::new(alloc);
    match parent.items.as_slice().first() {
        Some(Item::Instances(_, values, _)) => {
            let gift = given_by(alloc, &frames, child, values)?;
            Ok(gift.fault)
        }
        _ => Ok(None),
    }
}

// Whether each instance has its fault.
fn are_told(alloc: Global, rows: &[Row]) -> Result<bool, Fail> {
    for row in rows {
        let source = source_of(alloc, row.text)?;
        let found = fault_in(alloc, &source)?;
        if !is_told(found, row) {
            return Ok(false);
        }
    }
    Ok(true)
}

#[test]
fn bad_values_of_parameters_are_told(rt: HostRuntime) -> Result<(), Fail> {
    assert!(rt; are_told(rt.alloc(), &ROWS)?);
    Ok(())
}
