//! The rules of lists with commas.

use crate::binds::{read_instance, read_named_bind};
use crate::header::{read_header_parameter, read_named_port, read_port};
use std::alloc::Global;
use vl_read::commas::Rule;
use vl_read::cursor::Cursor;
use vl_read::fault::Fault;
use vl_tree::item::{HeaderParameter, Instance, NamedBind, Port};

/// Binds by name (A.4.1).
pub struct NamedBinds;

impl Rule for NamedBinds {
    ghost use Rattle.vl_tree.specs.Syntax as t;
    ghost use Rattle.vl_tree.specs.SyntaxView as view;
    ghost use Rattle.vl_tree.specs.Modules as modules;
    ghost use Rattle.vl_tree.specs.Depth as depth;
    ghost use Rattle.vl_read.specs.Reading.{Any};
    ghost use Rattle.vl_header.specs.Laws as law;

    type Tree = NamedBind;

    ghost Plain = { t.NamedBind };

    ghost view = { view.named_bind };

    ghost at = { modules.named_bind_at };

    ghost depths = { depth.named_bind_depths };

    ghost may = { Any };

    ghost laws = { law.named_bind_laws };

    fn read<'a>(
        alloc: Global,
        cursor: Cursor<'a>,
        depth: u32,
    ) -> Result<(Self::Tree, Cursor<'a>), Fault> {
        read_named_bind(alloc, cursor, depth)
    }
}

/// Instances (A.4.1).
pub struct Instances;

impl Rule for Instances {
    ghost use Rattle.vl_tree.specs.Syntax as t;
    ghost use Rattle.vl_tree.specs.SyntaxView as view;
    ghost use Rattle.vl_tree.specs.Modules as modules;
    ghost use Rattle.vl_tree.specs.Depth as depth;
    ghost use Rattle.vl_read.specs.Reading.{Any};
    ghost use Rattle.vl_header.specs.Laws as law;

    type Tree = Instance;

    ghost Plain = { t.Instance };

    ghost view = { view.instance };

    ghost at = { modules.instance_at };

    ghost depths = { depth.instance_depths };

    ghost may = { Any };

    ghost laws = { law.instance_laws };

    fn read<'a>(
        alloc: Global,
        cursor: Cursor<'a>,
        depth: u32,
    ) -> Result<(Self::Tree, Cursor<'a>), Fault> {
        read_instance(alloc, cursor, depth)
    }
}

/// Ports of a header (A.1.3).
pub struct Ports;

impl Rule for Ports {
    ghost use Rattle.vl_tree.specs.Syntax as t;
    ghost use Rattle.vl_tree.specs.SyntaxView as view;
    ghost use Rattle.vl_tree.specs.Modules as modules;
    ghost use Rattle.vl_tree.specs.Depth as depth;
    ghost use Rattle.vl_header.specs.Laws as law;
    ghost use Rattle.vl_read.specs.Reading.{Any};

    type Tree = Port;

    ghost Plain = { t.Port };

    ghost view = { view.port };

    ghost at = { modules.port_at };

    ghost depths = { depth.port_depths };

    ghost may = { Any };

    ghost laws = { law.port_laws };

    fn read<'a>(
        alloc: Global,
        cursor: Cursor<'a>,
        depth: u32,
    ) -> Result<(Self::Tree, Cursor<'a>), Fault> {
        read_port(alloc, cursor, depth)
    }
}

/// Ports of a header that are names alone (A.1.3).
pub struct NamedPorts;

impl Rule for NamedPorts {
    ghost use Rattle.vl_tree.specs.Syntax as t;
    ghost use Rattle.vl_tree.specs.SyntaxView as view;
    ghost use Rattle.vl_tree.specs.Modules as modules;
    ghost use Rattle.vl_tree.specs.Depth as depth;
    ghost use Rattle.vl_header.specs.Laws as law;
    ghost use Rattle.vl_read.specs.Reading.{Any};

    type Tree = Port;

    ghost Plain = { t.Port };

    ghost view = { view.port };

    ghost at = { modules.named_port_at };

    ghost depths = { depth.port_depths };

    ghost may = { Any };

    ghost laws = { law.named_port_laws };

    fn read<'a>(
        alloc: Global,
        cursor: Cursor<'a>,
        depth: u32,
    ) -> Result<(Self::Tree, Cursor<'a>), Fault> {
        read_named_port(alloc, cursor, depth)
    }
}

/// Parameters of a header (A.1.3).
pub struct HeaderParameters;

impl Rule for HeaderParameters {
    ghost use Rattle.vl_tree.specs.Syntax as t;
    ghost use Rattle.vl_tree.specs.SyntaxView as view;
    ghost use Rattle.vl_tree.specs.Modules as modules;
    ghost use Rattle.vl_tree.specs.Depth as depth;
    ghost use Rattle.vl_header.specs.Laws as law;
    ghost use Rattle.vl_expr.specs.Ends.{EndsExpr};

    type Tree = HeaderParameter;

    ghost Plain = { t.HeaderParameter };

    ghost view = { view.header_parameter };

    ghost at = { modules.header_parameter_at };

    ghost depths = { depth.header_parameter_depths };

    ghost may = { EndsExpr };

    ghost laws = { law.header_laws };

    fn read<'a>(
        alloc: Global,
        cursor: Cursor<'a>,
        depth: u32,
    ) -> Result<(Self::Tree, Cursor<'a>), Fault> {
        read_header_parameter(alloc, cursor, depth)
    }
}
