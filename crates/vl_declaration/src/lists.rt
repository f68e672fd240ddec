//! The rules of lists with commas.

use crate::named::{read_driven, read_net, read_variable};
use std::alloc::Global;
use vl_read::commas::Rule;
use vl_read::cursor::Cursor;
use vl_read::fault::Fault;
use vl_simple::{read_name, read_valued};
use vl_tree::expression::Name;
use vl_tree::item::{Driven, Net, Valued, Variable};

/// Names.
pub struct Names;

impl Rule for Names {
    ghost use Rattle.vl_tree.specs.Syntax as t;
    ghost use Rattle.vl_tree.specs.SyntaxView as view;
    ghost use Rattle.vl_tree.specs.Modules as modules;
    ghost use Rattle.vl_tree.specs.Depth as depth;
    ghost use Rattle.vl_tree.specs.Piece.{name_at};
    ghost use Rattle.vl_read.specs.Reading.{Any};
    ghost use Rattle.vl_declaration.specs.Laws as law;

    type Tree = Name;

    ghost Plain = { t.Name };

    ghost view = { view.name };

    ghost at = { name_at };

    ghost depths = { depth.name_depth };

    ghost may = { Any };

    ghost laws = { law.name_laws };

    fn read<'a>(
        alloc: Global,
        cursor: Cursor<'a>,
        depth: u32,
    ) -> Result<(Self::Tree, Cursor<'a>), Fault> {
        read_name(alloc, cursor, depth)
    }
}

/// Names, each with its value (IEEE 1364-2005, A.2.4).
pub struct ValuedNames;

impl Rule for ValuedNames {
    ghost use Rattle.vl_tree.specs.Syntax as t;
    ghost use Rattle.vl_tree.specs.SyntaxView as view;
    ghost use Rattle.vl_tree.specs.Modules as modules;
    ghost use Rattle.vl_tree.specs.Depth as depth;
    ghost use Rattle.vl_expr.specs.Ends.{EndsExpr};
    ghost use Rattle.vl_declaration.specs.Laws as law;

    type Tree = Valued;

    ghost Plain = { t.Valued };

    ghost view = { view.valued };

    ghost at = { modules.valued_at };

    ghost depths = { depth.valued_depths };

    ghost may = { EndsExpr };

    ghost laws = { law.valued_laws };

    fn read<'a>(
        alloc: Global,
        cursor: Cursor<'a>,
        depth: u32,
    ) -> Result<(Self::Tree, Cursor<'a>), Fault> {
        read_valued(alloc, cursor, depth)
    }
}

/// Nets (A.2.3).
pub struct Nets;

impl Rule for Nets {
    ghost use Rattle.vl_tree.specs.Syntax as t;
    ghost use Rattle.vl_tree.specs.SyntaxView as view;
    ghost use Rattle.vl_tree.specs.Modules as modules;
    ghost use Rattle.vl_tree.specs.Depth as depth;
    ghost use Rattle.vl_declaration.specs.Readers.{NoValue};
    ghost use Rattle.vl_declaration.specs.Laws as law;

    type Tree = Net;

    ghost Plain = { t.Net };

    ghost view = { view.net };

    ghost at = { modules.net_at };

    ghost depths = { depth.net_depths };

    ghost may = { NoValue };

    ghost laws = { law.net_laws };

    fn read<'a>(
        alloc: Global,
        cursor: Cursor<'a>,
        depth: u32,
    ) -> Result<(Self::Tree, Cursor<'a>), Fault> {
        read_net(alloc, cursor, depth)
    }
}

/// Variables (A.2.3).
pub struct Variables;

impl Rule for Variables {
    ghost use Rattle.vl_tree.specs.Syntax as t;
    ghost use Rattle.vl_tree.specs.SyntaxView as view;
    ghost use Rattle.vl_tree.specs.Modules as modules;
    ghost use Rattle.vl_tree.specs.Depth as depth;
    ghost use Rattle.vl_declaration.specs.Readers.{NoValue};
    ghost use Rattle.vl_declaration.specs.Laws as law;

    type Tree = Variable;

    ghost Plain = { t.Variable };

    ghost view = { view.variable };

    ghost at = { modules.variable_at };

    ghost depths = { depth.variable_depths };

    ghost may = { NoValue };

    ghost laws = { law.variable_laws };

    fn read<'a>(
        alloc: Global,
        cursor: Cursor<'a>,
        depth: u32,
    ) -> Result<(Self::Tree, Cursor<'a>), Fault> {
        read_variable(alloc, cursor, depth)
    }
}

/// What an `assign` drives (A.6.1).
pub struct Drives;

impl Rule for Drives {
    ghost use Rattle.vl_tree.specs.Syntax as t;
    ghost use Rattle.vl_tree.specs.SyntaxView as view;
    ghost use Rattle.vl_tree.specs.Modules as modules;
    ghost use Rattle.vl_tree.specs.Depth as depth;
    ghost use Rattle.vl_expr.specs.Ends.{EndsExpr};
    ghost use Rattle.vl_declaration.specs.Laws as law;

    type Tree = Driven;

    ghost Plain = { t.Driven };

    ghost view = { view.driven };

    ghost at = { modules.driven_at };

    ghost depths = { depth.driven_depths };

    ghost may = { EndsExpr };

    ghost laws = { law.driven_laws };

    fn read<'a>(
        alloc: Global,
        cursor: Cursor<'a>,
        depth: u32,
    ) -> Result<(Self::Tree, Cursor<'a>), Fault> {
        read_driven(alloc, cursor, depth)
    }
}
