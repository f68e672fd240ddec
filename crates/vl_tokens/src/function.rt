//! Tokens of functions.

ghost use Rattle.std.specs.Prelude.{◌≡◌, ◌+◌, length, map};
ghost use Rattle.vl_tree.specs.SyntaxView as view;
ghost use Rattle.vl_tree.specs.Depth.{function_type_depths, function_port_depths, function_ports_depths, function_declaration_depths, each_depth, function_depths, one_if};
ghost use Rattle.vl_tokens.specs.Counted.{capped};

use crate::count::{one_where, plus};
use crate::declaration::{names_in_commas, ports_in_commas, shape};
use crate::expression::range;
use crate::statement::stmt;
use vl_tree::item::{Function, FunctionDeclaration, FunctionPort, FunctionType};

fn result(declared: &FunctionType) -> u32
    ensures { result ≡ capped (length (function_type_depths 0 (view.function_type declared.now))) }
{
    match declared {
        FunctionType::Bit => 0,
        FunctionType::Range(own) => range(own),
        FunctionType::Integer => 1,
    }
}

// The inputs of a header with their parentheses.
fn ports(all: &[FunctionPort]) -> u32
    ensures { result ≡ capped (length (function_ports_depths 0 (map view.function_port all.now))) }
{
    if all.is_empty() {
        0
    } else {
        plus(2, ports_in_commas(all))
    }
}

fn declaration(one: &FunctionDeclaration) -> u32
    ensures { result ≡ capped (length (function_declaration_depths 0 (view.function_declaration one.now))) }
{
    match one {
        FunctionDeclaration::Inputs(_, signed, declared, all) => {
            let names = plus(2, names_in_commas(all.as_slice()));
            plus(shape(*signed, declared), names)
        }
        FunctionDeclaration::Variables(_, signed, declared, all) => {
            let names = plus(2, names_in_commas(all.as_slice()));
            plus(shape(*signed, declared), names)
        }
        FunctionDeclaration::Integers(_, all) => plus(2, names_in_commas(all.as_slice())),
    }
}

fn declarations(all: &[FunctionDeclaration]) -> u32
    ensures { result ≡ capped (length (each_depth function_declaration_depths 0 (map view.function_declaration all.now))) }
{
    let mut count = 0;
    for item in all {
        let one = declaration(item);
        count = plus(count, one);
    }
    count
}

// The words and the type before a function's name.
fn front(f: &Function) -> u32
    ensures { let g = view.function f.now in
        result ≡ capped (length (one_if 0 g.automatic) + (length (one_if 0 g.signed) + length (function_type_depths 0 g.result))) }
{
    let rest = plus(one_where(f.signed), result(&f.result));
    plus(one_where(f.automatic), rest)
}

/// Tokens of a function.
pub fn function(f: &Function) -> u32
    ensures { result ≡ capped (length (function_depths 0 (view.function f.now))) }
{
    let body = plus(4, stmt(&f.body));
    let inner = plus(declarations(f.declarations.as_slice()), body);
    let rest = plus(ports(f.ports.as_slice()), inner);
    plus(front(f), rest)
}
