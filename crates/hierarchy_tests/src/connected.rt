//! An instance of the first module in the second, with the fault of its connections.

use crate::read::{Row, declared_by, is_told, source_of};
use std::alloc::{AllocError, Global};
use std::test::Fail;
use vl_connections::instance_fault;
use vl_found::Found;
use vl_tree::fault::FaultKind;
use vl_tree::item::{Item, Module, Source};

static ROWS: [Row; 6] = [
    Row {
        text: b"module c(input a, output b); endmodule module t; c u(.a(1), .b()); endmodule\n",
        fault: None,
    },
    Row {
        text: b"module c(input a, output b); endmodule module t; c u(.x(1)); endmodule\n",
        fault: Some((18, FaultKind::UnknownPort)),
    },
    Row {
        text: b"module c(input a, output b); endmodule module t; c u(.a(1), .a(2)); endmodule\n",
        fault: Some((24, FaultKind::BadPort)),
    },
    Row {
        text: b"module c(input a, output b); endmodule module t; c u(1, 2, 3); endmodule\n",
        fault: Some((21, FaultKind::BadPort)),
    },
    Row {
        text: b"module c(input a, output b); endmodule module t; c u(1, 2); endmodule\n",
        fault: None,
    },
    Row {
        text: b"module c(a); input a; input b; endmodule module t; c u(.b(1)); endmodule\n",
        fault: None,
    },
];

// The fault of the first instance in the second module, which is one of the first.
fn fault_in(alloc: Global, source: &Source) -> Result<Option<Found>, AllocError> {
    match source.modules.as_slice() {
        [child, parent] => fault_of(alloc, child, parent),
        _ => Ok(None),
    }
}

fn fault_of(alloc: Global, child: &Module, parent: &Module) -> Result<Option<Found>, AllocError> {
    let declared = declared_by(alloc, child)?;
    match parent.items.as_slice().first() {
        Some(Item::Instances(_, _, instances)) => match instances.as_slice().first() {
            Some(instance) => instance_fault(alloc, declared.as_slice(), child, &instance.binds),
            None => Ok(None),
        },
        _ => Ok(None),
    }
}

// Whether each instance has its fault.
fn are_told(alloc: Global, rows: &[Row]) -> Result<bool, Fail> {
    for row in rows {
        let source = source_of(alloc, row.text)?;
        let found = fault_in(alloc, &source)?;
        if !is_told(found, row) {
            return Ok(false);
        }
    }
    Ok(true)
}

#[test]
fn bad_connections_are_told(rt: HostRuntime) -> Result<(), Fail> {
    assert!(rt; are_told(rt.alloc(), &ROWS)?);
    Ok(())
}
