//! Modules, and whether each has a fault.
//!
//! Each is the tree of this text, but for what its case says. `module m(input clk, input up, output reg [3:0] r);
//! always @(posedge clk) begin if (up == 1) r <= r + 1; else if (r == 9) begin $display("r hit %0d", r); $stop; end else r <= 0; end
//! endmodule`

use dt_core::text::Text;
use sqlite_items::{Boxed, Items};
use std::alloc::Global;
use std::test::Fail;
use vl_scope::is_sound;
use vl_scope::scope::Scope;
use vl_tree::expr::{Binary, Expr, Primary};
use vl_tree::token::Literal;
use vl_tree::tree::{Branch, Module, Port, Stmt};

/// A bound of a range: a plain number, or `4'sd15`, which is -1.
#[derive(Clone, Copy)]
enum Bound {
    Plain(u32),
    MinusOne,
}

/// A module by what may differ in it, and whether it is sound.
#[derive(Clone, Copy)]
struct Case {
    what: &'static str,
    sound: bool,
    /// The second input.
    input: &'static [u8],
    left: Bound,
    right: Bound,
    clock: &'static [u8],
    /// What the second condition reads.
    read: &'static [u8],
    format: &'static [u8],
    argument: Option<&'static [u8]>,
    stops: u32,
    /// The target after `else`.
    target: &'static [u8],
}

const COUNTER: Case = Case {
    what: "counter",
    sound: true,
    input: b"up",
    left: Bound::Plain(3),
    right: Bound::Plain(0),
    clock: b"clk",
    read: b"r",
    format: b"r hit %0d",
    argument: Some(b"r"),
    stops: 1,
    target: b"r",
};

#[rattlefmt::skip]
static CASES: [Case; 19] = [
    COUNTER,
    Case { what: "name twice", sound: false, input: b"r", ..COUNTER },
    Case { what: "clock unknown", sound: false, clock: b"c", ..COUNTER },
    Case { what: "clock an output", sound: false, clock: b"r", ..COUNTER },
    Case { what: "greatest bound", left: Bound::Plain(65_535), right: Bound::Plain(65_535), ..COUNTER },
    Case { what: "bound too great", sound: false, left: Bound::Plain(65_536), right: Bound::Plain(65_536), ..COUNTER },
    Case { what: "width 128", left: Bound::Plain(127), ..COUNTER },
    Case { what: "width 129", sound: false, left: Bound::Plain(128), ..COUNTER },
    Case { what: "bound negative", sound: false, left: Bound::MinusOne, ..COUNTER },
    Case { what: "operand unknown", sound: false, read: b"q", ..COUNTER },
    Case { what: "clock read", sound: false, read: b"clk", ..COUNTER },
    Case { what: "target unknown", sound: false, target: b"q", ..COUNTER },
    Case { what: "target an input", sound: false, target: b"up", ..COUNTER },
    Case { what: "argument unknown", sound: false, argument: Some(b"q"), ..COUNTER },
    Case { what: "item %d", sound: false, format: b"r hit %d", ..COUNTER },
    Case { what: "no argument", sound: false, argument: None, ..COUNTER },
    Case { what: "no item", sound: false, format: b"r hit", ..COUNTER },
    Case { what: "neither", argument: None, format: b"r hit 100%%", ..COUNTER },
    Case { what: "two stops", sound: false, stops: 2, ..COUNTER },
];

fn plain(value: u32) -> Literal {
    Literal {
        width: 32,
        sized: false,
        signed: true,
        value: u128::from(value),
        wild: 0,
    }
}

fn literal(bound: Bound) -> Literal {
    match bound {
        Bound::Plain(value) => plain(value),
        Bound::MinusOne => Literal {
            width: 4,
            sized: true,
            signed: true,
            value: 15,
            wild: 0,
        },
    }
}

fn name(alloc: Global, name: &[u8]) -> Result<Primary, Fail> {
    Ok(Primary::Name(Text::copied(alloc, name)?))
}

fn assign(alloc: Global, target: &[u8], value: Expr) -> Result<Stmt, Fail> {
    Ok(Stmt::Assign(Text::copied(alloc, target)?, value))
}

fn display(alloc: Global, case: &Case) -> Result<Stmt, Fail> {
    let format = Text::copied(alloc, case.format)?;
    match case.argument {
        Some(name) => Ok(Stmt::Display(format, Some(Text::copied(alloc, name)?))),
        None => Ok(Stmt::Display(format, None)),
    }
}

fn failure(alloc: Global, case: &Case) -> Result<Stmt, Fail> {
    let mut body = Items::new(alloc);
    body.push(display(alloc, case)?)?;
    for line in 0..case.stops {
        body.push(Stmt::Stop(line))?;
    }
    Ok(Stmt::Block(body))
}

fn chain(alloc: Global, case: &Case) -> Result<Stmt, Fail> {
    let one = Expr::Binary(name(alloc, b"r")?, Binary::Add, Primary::Number(plain(1)));
    let mut branches = Items::new(alloc);
    branches.push(Branch {
        condition: Expr::Binary(
            name(alloc, case.input)?,
            Binary::Equal,
            Primary::Number(plain(1)),
        ),
        body: assign(alloc, b"r", one)?,
    })?;
    branches.push(Branch {
        condition: Expr::Binary(
            name(alloc, case.read)?,
            Binary::Equal,
            Primary::Number(plain(9)),
        ),
        body: failure(alloc, case)?,
    })?;
    let zero = Expr::Primary(Primary::Number(plain(0)));
    let behind = Boxed::new(alloc, assign(alloc, case.target, zero)?)?;
    Ok(Stmt::Conditional(branches, Some(behind)))
}

fn module(alloc: Global, case: &Case) -> Result<Module, Fail> {
    let clk = Port::Input(Text::copied(alloc, b"clk")?);
    let input = Port::Input(Text::copied(alloc, case.input)?);
    let r = Port::Output(
        Text::copied(alloc, b"r")?,
        literal(case.left),
        literal(case.right),
    );
    let mut body = Items::new(alloc);
    body.push(chain(alloc, case)?)?;
    Ok(Module {
        name: Text::copied(alloc, b"m")?,
        ports: Vec::from_array(alloc, [clk, input, r])?,
        clock: Text::copied(alloc, case.clock)?,
        body,
    })
}

#[test]
fn judges_modules(rt: HostRuntime) -> Result<(), Fail> {
    for case in &CASES {
        let what = case.what;
        let module = module(rt.alloc(), case)?;
        assert_eq!(rt; is_sound(rt.alloc(), &module)?, case.sound, "{what}");
    }
    Ok(())
}

#[test]
fn finds_names(rt: HostRuntime) -> Result<(), Fail> {
    let twice = module(rt.alloc(), &CASES[1])?;
    assert!(rt; twice.ports.len() < 4);
    let scope = Scope::of_ports(rt.alloc(), &twice.ports)?;
    assert_eq!(rt; scope.find(&Text::copied(rt.alloc(), b"clk")?), Some(0));
    assert_eq!(rt; scope.find(&Text::copied(rt.alloc(), b"r")?), Some(1));
    assert_eq!(rt; scope.find(&Text::copied(rt.alloc(), b"m")?), None);
    assert!(rt; !scope.are_distinct());
    Ok(())
}
