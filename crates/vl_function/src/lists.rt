//! The rules of lists with commas.

use crate::function::read_function_port;
use std::alloc::Global;
use vl_read::commas::Rule;
use vl_read::cursor::Cursor;
use vl_read::fault::Fault;
use vl_tree::item::FunctionPort;

/// Inputs of a function's header (A.2.6).
pub struct FunctionPorts;

impl Rule for FunctionPorts {
    ghost use Rattle.vl_tree.specs.Syntax as t;
    ghost use Rattle.vl_tree.specs.SyntaxView as view;
    ghost use Rattle.vl_tree.specs.Modules as modules;
    ghost use Rattle.vl_tree.specs.Depth as depth;
    ghost use Rattle.vl_function.specs.Laws as law;
    ghost use Rattle.vl_read.specs.Reading.{Any};

    type Tree = FunctionPort;

    ghost Plain = { t.FunctionPort };

    ghost view = { view.function_port };

    ghost at = { modules.function_port_at };

    ghost depths = { depth.function_port_depths };

    ghost may = { Any };

    ghost laws = { law.function_port_laws };

    fn read<'a>(
        alloc: Global,
        cursor: Cursor<'a>,
        depth: u32,
    ) -> Result<(Self::Tree, Cursor<'a>), Fault> {
        read_function_port(alloc, cursor, depth)
    }
}
