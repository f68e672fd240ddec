//! Tokens of declarations: what items hold that hold no items.

ghost use Rattle.std.specs.Prelude.{◌≡◌, length, map, false};
ghost use Rattle.std.specs.Option.{option_map};
ghost use Rattle.vl_tree.specs.SyntaxView as view;
ghost use Rattle.vl_tree.specs.Depth.{type_depths, depths_of, range_depths, value_depths, expr_depths, directed_depths, name_depth, valued_depths, net_depths, variable_depths, driven_depths, edge_depths, sensed_depths, event_depths, named_bind_depths, binds_depths, instance_depths, function_port_depths};
ghost use Rattle.vl_tokens.specs.Counted.{capped, in_list};

use crate::count::{one_where, plus};
use crate::expression::{expr, in_commas, range};
use crate::statement::target;
use vl_tree::expression::{Expr, Name, Range};
use vl_tree::item::{
    Binds, Directed, Driven, Edge, Event, Function, FunctionDeclaration, FunctionPort,
    FunctionType, Instance, NamedBind, Net, Sensed, Valued, Variable,
};

/// Tokens of a sign and a range, either of which may be missing.
pub fn shape(signed: bool, declared: &Option<Range>) -> u32
    ensures { result ≡ capped (length (type_depths 0 signed (option_map view.range declared.now))) }
{
    let rest = ranged(declared);
    plus(one_where(signed), rest)
}

fn ranged(declared: &Option<Range>) -> u32
    ensures { result ≡ capped (length (depths_of range_depths 0 (option_map view.range declared.now))) }
{
    match declared {
        Some(own) => range(own),
        None => 0,
    }
}

// `=` and a value, where there is one.
fn assigned(value: &Option<Expr>) -> u32
    ensures { result ≡ capped (length (depths_of value_depths 0 (option_map view.expr value.now))) }
{
    match value {
        Some(e) => plus(1, expr(e)),
        None => 0,
    }
}

fn bound(value: &Option<Expr>) -> u32
    ensures { result ≡ capped (length (depths_of expr_depths 0 (option_map view.expr value.now))) }
{
    match value {
        Some(e) => expr(e),
        None => 0,
    }
}

/// Tokens of a declaration of a direction.
pub fn directed(d: &Directed) -> u32
    ensures { result ≡ capped (length (directed_depths 0 (view.directed d.now))) }
{
    let kept = one_where(d.kept.is_some());
    let rest = plus(kept, shape(d.signed, &d.range));
    plus(1, rest)
}

// A name is one token.
fn word(_one: &Name) -> u32
    ensures { result ≡ capped (length (name_depth 0 (view.name _one.now))) }
{
    1
}

fn valued(one: &Valued) -> u32
    ensures { result ≡ capped (length (valued_depths 0 (view.valued one.now))) }
{
    plus(2, expr(&one.value))
}

fn net(one: &Net) -> u32
    ensures { result ≡ capped (length (net_depths 0 (view.net one.now))) }
{
    plus(1, assigned(&one.value))
}

fn variable(one: &Variable) -> u32
    ensures { result ≡ capped (length (variable_depths 0 (view.variable one.now))) }
{
    match one {
        Variable::Plain(_) => 1,
        Variable::Valued(_, e) => plus(2, expr(e)),
        Variable::Memory(_, words) => plus(1, range(words)),
    }
}

fn driven(one: &Driven) -> u32
    ensures { result ≡ capped (length (driven_depths 0 (view.driven one.now))) }
{
    let value = plus(1, expr(&one.value));
    plus(target(&one.target), value)
}

fn edge(one: Edge) -> u32
    ensures { result ≡ capped (length (edge_depths 0 (view.edge one))) }
{
    match one {
        Edge::Positive(_) => 1,
        Edge::Negative(_) => 1,
        Edge::No => 0,
    }
}

fn sensed(one: &Sensed) -> u32
    ensures { result ≡ capped (length (sensed_depths 0 (view.sensed one.now))) }
{
    plus(edge(one.edge), expr(&one.signal))
}

/// Tokens of what an `always` block waits for.
pub fn event(awaited: &Event) -> u32
    ensures { result ≡ capped (length (event_depths 0 (view.event awaited.now))) }
{
    match awaited {
        Event::AnyRead => 2,
        Event::AnyReadList => 4,
        Event::Sensed(all) => plus(3, sensed_in_commas(all.as_slice())),
    }
}

fn named_bind(one: &NamedBind) -> u32
    ensures { result ≡ capped (length (named_bind_depths 0 (view.named_bind one.now))) }
{
    plus(4, bound(&one.value))
}

/// Tokens of binds, where there are some.
pub fn binds(all: &Option<Binds>) -> u32
    ensures { result ≡ capped (length (depths_of binds_depths 0 (option_map view.binds all.now))) }
{
    match all {
        Some(own) => given_binds(own),
        None => 0,
    }
}

fn given_binds(all: &Binds) -> u32
    ensures { result ≡ capped (length (binds_depths 0 (view.binds all.now))) }
{
    match all {
        Binds::Ordered(values) => in_commas(false, values.as_slice()),
        Binds::ByName(named) => binds_in_commas(named.as_slice()),
    }
}

fn instance(one: &Instance) -> u32
    ensures { result ≡ capped (length (instance_depths 0 (view.instance one.now))) }
{
    plus(3, binds(&one.binds))
}

fn function_port(one: &FunctionPort) -> u32
    ensures { result ≡ capped (length (function_port_depths 0 (view.function_port one.now))) }
{
    match one {
        FunctionPort::Declared(_, signed, declared, _) => plus(2, shape(*signed, declared)),
        FunctionPort::Named(_) => 1,
    }
}

/// Tokens of names with commas between them.
pub fn names_in_commas(all: &[Name]) -> u32
    ensures { result ≡ capped (in_list name_depth false (map view.name all.now)) }
{
    let mut comma = false;
    let mut count = 0;
    for item in all {
        let one = plus(one_where(comma), word(item));
        count = plus(count, one);
        comma = true;
    }
    count
}

/// Tokens of parameters with their values with commas between them.
pub fn values_in_commas(all: &[Valued]) -> u32
    ensures { result ≡ capped (in_list valued_depths false (map view.valued all.now)) }
{
    let mut comma = false;
    let mut count = 0;
    for item in all {
        let one = plus(one_where(comma), valued(item));
        count = plus(count, one);
        comma = true;
    }
    count
}

/// Tokens of nets with commas between them.
pub fn nets_in_commas(all: &[Net]) -> u32
    ensures { result ≡ capped (in_list net_depths false (map view.net all.now)) }
{
    let mut comma = false;
    let mut count = 0;
    for item in all {
        let one = plus(one_where(comma), net(item));
        count = plus(count, one);
        comma = true;
    }
    count
}

/// Tokens of variables with commas between them.
pub fn variables_in_commas(all: &[Variable]) -> u32
    ensures { result ≡ capped (in_list variable_depths false (map view.variable all.now)) }
{
    let mut comma = false;
    let mut count = 0;
    for item in all {
        let one = plus(one_where(comma), variable(item));
        count = plus(count, one);
        comma = true;
    }
    count
}

/// Tokens of continuous assignments with commas between them.
pub fn driven_in_commas(all: &[Driven]) -> u32
    ensures { result ≡ capped (in_list driven_depths false (map view.driven all.now)) }
{
    let mut comma = false;
    let mut count = 0;
    for item in all {
        let one = plus(one_where(comma), driven(item));
        count = plus(count, one);
        comma = true;
    }
    count
}

fn sensed_in_commas(all: &[Sensed]) -> u32
    ensures { result ≡ capped (in_list sensed_depths false (map view.sensed all.now)) }
{
    let mut comma = false;
    let mut count = 0;
    for item in all {
        let one = plus(one_where(comma), sensed(item));
        count = plus(count, one);
        comma = true;
    }
    count
}

fn binds_in_commas(all: &[NamedBind]) -> u32
    ensures { result ≡ capped (in_list named_bind_depths false (map view.named_bind all.now)) }
{
    let mut comma = false;
    let mut count = 0;
    for item in all {
        let one = plus(one_where(comma), named_bind(item));
        count = plus(count, one);
        comma = true;
    }
    count
}

/// Tokens of instances with commas between them.
pub fn instances_in_commas(all: &[Instance]) -> u32
    ensures { result ≡ capped (in_list instance_depths false (map view.instance all.now)) }
{
    let mut comma = false;
    let mut count = 0;
    for item in all {
        let one = plus(one_where(comma), instance(item));
        count = plus(count, one);
        comma = true;
    }
    count
}

pub fn ports_in_commas(all: &[FunctionPort]) -> u32
    ensures { result ≡ capped (in_list function_port_depths false (map view.function_port all.now)) }
{
    let mut comma = false;
    let mut count = 0;
    for item in all {
        let one = plus(one_where(comma), function_port(item));
        count = plus(count, one);
        comma = true;
    }
    count
}
