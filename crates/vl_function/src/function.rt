//! Functions.

ghost use Rattle.std.specs.Prelude.{◌≡◌, ◌+◌, ◌≤◌, ◌<◌, IfOk, length};
ghost use Rattle.dt_core.specs.declared.limits.TheConstants.{MAX_DEPTH};
ghost use Rattle.vl_tree.specs.SyntaxView as view;
ghost use Rattle.vl_function.specs.Readers.{ReadsFunctionType, ReadsFunctionPort, ReadsInputList, ReadsFunctionPorts};
ghost use Rattle.vl_function.specs.Readers.{ReadsNames, ReadsShapedNames, ReadsFunctionDeclaration};
ghost use Rattle.vl_function.specs.Readers as readers;
ghost use Rattle.vl_function.specs.Readers.{TellsDeclaration, ReadsBody, ReadsClosedBody, ReadsHead, ReadsFunction};

use crate::lists::FunctionPorts;
use dt_core::place::Place;
use sqlite_items::Items;
use std::alloc::Global;
use vl_declaration::{Names, Shape, read_key, read_range, read_shape, skip_key};
use vl_read::commas::read_commas;
use vl_read::cursor::Cursor;
use vl_read::fault::Fault;
use vl_simple::read_name;
use vl_statement::read_statement;
use vl_tree::expression::Name;
use vl_tree::item::{Function, FunctionDeclaration, FunctionPort, FunctionType};
use vl_tree::statement::Stmt;
use vl_tree::token::{Key, Mark};

// A range or `integer`, if one is there (IEEE 1364-2005, A.2.6).
fn read_function_type<'a>(
    alloc: Global,
    at: Cursor<'a>,
    depth: u32,
) -> Result<(FunctionType, Cursor<'a>), Fault>
    requires low { depth ≤ MAX_DEPTH }
    ensures reads { ReadsFunctionType depth at.entry result }
    ensures shorter { IfOk result (λ x. length x.1 ≤ length at.entry) }
{
    match at.find_key(Key::Integer) {
        Some((_, rest)) => Ok((FunctionType::Integer, rest)),
        None => {
            let (range, rest) = read_range(alloc, at, depth)?;
            match range {
                Some(range) => Ok((FunctionType::Range(range), rest)),
                None => Ok((FunctionType::Bit, rest)),
            }
        }
    }
}

/// An input of a function's header (A.2.6).
pub fn read_function_port<'a>(
    alloc: Global,
    at: Cursor<'a>,
    depth: u32,
) -> Result<(FunctionPort, Cursor<'a>), Fault>
    requires low { depth ≤ MAX_DEPTH + 1 }
    ensures reads { ReadsFunctionPort depth at.entry result }
    ensures shorter { IfOk result (λ x. length x.1 < length at.entry) }
    ensures shallow { IfOk result (λ x. depth ≤ MAX_DEPTH) }
{
    match at.find_key(Key::Input) {
        Some(_) => {
            let (place, after) = read_key(&at, Key::Input, depth)?;
            let (shape, after) = read_shape(alloc, after, depth)?;
            let (name, rest) = read_name(alloc, after, depth)?;
            let port = FunctionPort::Declared(place, shape.signed, shape.range, name);
            Ok((port, rest))
        }
        None => {
            let (name, rest) = read_name(alloc, at, depth)?;
            Ok((FunctionPort::Named(name), rest))
        }
    }
}

// Inputs of a header, of which the first has the word `input`.
fn read_input_list<'a>(
    alloc: Global,
    at: Cursor<'a>,
    depth: u32,
) -> Result<(Items<FunctionPort>, Cursor<'a>), Fault>
    requires low { depth ≤ MAX_DEPTH + 1 }
    ensures reads { ReadsInputList depth at.entry result }
    ensures shorter { IfOk result (λ x. length x.1 < length at.entry) }
{
    match at.find_key(Key::Input) {
        Some(_) => read_commas::<FunctionPorts>(alloc, at, depth),
        None => Err(Fault::At(at.left())),
    }
}

// The inputs of a header in parentheses, if it has them (A.2.6).
fn read_function_ports<'a>(
    alloc: Global,
    at: Cursor<'a>,
    depth: u32,
) -> Result<(Items<FunctionPort>, Cursor<'a>), Fault>
    requires low { depth ≤ MAX_DEPTH }
    ensures reads { ReadsFunctionPorts depth at.entry result }
    ensures shorter { IfOk result (λ x. length x.1 ≤ length at.entry) }
{
    match at.find_mark(Mark::OpenParen) {
        None => Ok((Items::new(alloc), at)),
        Some((_, inner)) => {
            let (all, after) = read_input_list(alloc, inner, depth + 1)?;
            let rest = after.pass_mark(Mark::CloseParen)?;
            Ok((all, rest))
        }
    }
}

// Whether a declaration of a function comes next.
fn is_declaration(at: &Cursor<'_>) -> bool
    ensures { TellsDeclaration at.now result }
{
    if let Some(_) = at.find_key(Key::Input) {
        return true;
    }
    if let Some(_) = at.find_key(Key::Reg) {
        return true;
    }
    match at.find_key(Key::Integer) {
        Some(_) => true,
        None => false,
    }
}

// Names, and the semicolon after them.
fn read_names<'a>(
    alloc: Global,
    at: Cursor<'a>,
    depth: u32,
) -> Result<(Items<Name>, Cursor<'a>), Fault>
    requires low { depth ≤ MAX_DEPTH }
    ensures reads { ReadsNames depth at.entry result }
    ensures shorter { IfOk result (λ x. length x.1 < length at.entry) }
{
    let (names, after) = read_commas::<Names>(alloc, at, depth)?;
    let rest = after.pass_mark(Mark::Semicolon)?;
    Ok((names, rest))
}

// A sign, a range, names, and the semicolon after them.
fn read_shaped_names<'a>(
    alloc: Global,
    at: Cursor<'a>,
    depth: u32,
) -> Result<((Shape, Items<Name>), Cursor<'a>), Fault>
    requires low { depth ≤ MAX_DEPTH }
    ensures reads { ReadsShapedNames depth at.entry result }
    ensures shorter { IfOk result (λ x. length x.1 < length at.entry) }
{
    let (shape, after) = read_shape(alloc, at, depth)?;
    let (names, rest) = read_names(alloc, after, depth)?;
    Ok(((shape, names), rest))
}

// A declaration in a function (A.2.8).
fn read_function_declaration<'a>(
    alloc: Global,
    at: Cursor<'a>,
    depth: u32,
) -> Result<(FunctionDeclaration, Cursor<'a>), Fault>
    requires low { depth ≤ MAX_DEPTH + 1 }
    ensures reads { ReadsFunctionDeclaration depth at.entry result }
    ensures shorter { IfOk result (λ x. length x.1 < length at.entry) }
    ensures shallow { IfOk result (λ x. depth ≤ MAX_DEPTH) }
{
    if let Some(_) = at.find_key(Key::Input) {
        let (place, after) = read_key(&at, Key::Input, depth)?;
        let ((shape, names), rest) = read_shaped_names(alloc, after, depth)?;
        let tree = FunctionDeclaration::Inputs(place, shape.signed, shape.range, names);
        return Ok((tree, rest));
    }
    match at.find_key(Key::Reg) {
        Some(_) => {
            let (place, after) = read_key(&at, Key::Reg, depth)?;
            let ((shape, names), rest) = read_shaped_names(alloc, after, depth)?;
            let tree = FunctionDeclaration::Variables(place, shape.signed, shape.range, names);
            Ok((tree, rest))
        }
        None => {
            let (place, after) = read_key(&at, Key::Integer, depth)?;
            let (names, rest) = read_names(alloc, after, depth)?;
            Ok((FunctionDeclaration::Integers(place, names), rest))
        }
    }
}

// The declarations of a function and its statement.
fn read_body<'a>(
    alloc: Global,
    at: Cursor<'a>,
    depth: u32,
) -> Result<((Items<FunctionDeclaration>, Stmt), Cursor<'a>), Fault>
    requires low { depth ≤ MAX_DEPTH + 1 }
    ensures reads { ReadsBody depth at.entry result }
    ensures shorter { IfOk result (λ x. length x.1 < length at.entry) }
{
    let mut all = Items::new(alloc);
    let mut rest = at;
    loop {
        if is_declaration(&rest) {
            let (declaration, after) = read_function_declaration(alloc, rest, depth)?;
            all.push(declaration)?;
            rest = after;
        } else {
            let (statement, end) = read_statement(alloc, rest, depth)?;
            return Ok(((all, statement), end));
        }
    }
}

// What stands before the semicolon of a function's header.
#[derive(Drop)]
struct Head {
    automatic: bool,
    signed: bool,
    result: FunctionType,
    name: Name,
    ports: Items<FunctionPort>,
}

// A function's header from after `function` on, up to its semicolon.
fn read_head<'a>(alloc: Global, at: Cursor<'a>, depth: u32) -> Result<(Head, Cursor<'a>), Fault>
    requires low { depth ≤ MAX_DEPTH }
    ensures reads { ReadsHead depth at.entry result }
    ensures shorter { IfOk result (λ x. length x.1 < length at.entry) }
{
    let (automatic, begin) = skip_key(at, Key::Automatic);
    let (signed, start) = skip_key(begin, Key::Signed);
    let (returned, after) = read_function_type(alloc, start, depth)?;
    let (name, after) = read_name(alloc, after, depth)?;
    let (ports, rest) = read_function_ports(alloc, after, depth)?;
    let head = Head {
        automatic,
        signed,
        result: returned,
        name,
        ports,
    };
    Ok((head, rest))
}

/// A function whose `function` stands at this place, from after it on (A.2.6).
pub fn read_function<'a>(
    alloc: Global,
    at: Cursor<'a>,
    depth: u32,
    place: Place,
) -> Result<(Function, Cursor<'a>), Fault>
    requires low { depth ≤ MAX_DEPTH }
    ensures reads { ReadsFunction (view.place place) depth at.entry result }
    ensures shorter { IfOk result (λ x. length x.1 < length at.entry) }
{
    let (head, after) = read_head(alloc, at, depth)?;
    let (body, rest) = read_closed_body(alloc, after, depth)?;
    Ok((function_of(place, head, body), rest))
}

// A function's semicolon, its declarations and statement, and its `endfunction`.
fn read_closed_body<'a>(
    alloc: Global,
    at: Cursor<'a>,
    depth: u32,
) -> Result<((Items<FunctionDeclaration>, Stmt), Cursor<'a>), Fault>
    requires low { depth ≤ MAX_DEPTH }
    ensures reads { ReadsClosedBody depth at.entry result }
    ensures shorter { IfOk result (λ x. length x.1 < length at.entry) }
{
    let inner = at.pass_mark(Mark::Semicolon)?;
    let (body, after) = read_body(alloc, inner, depth + 1)?;
    let rest = after.pass_key(Key::Endfunction)?;
    Ok((body, rest))
}

// The function of these parts.
fn function_of(place: Place, head: Head, body: (Items<FunctionDeclaration>, Stmt)) -> Function
    ensures { view.function result ≡ readers.function_of (view.place place) (readers.head head, readers.body body) }
{
    Function {
        place,
        automatic: head.automatic,
        signed: head.signed,
        result: head.result,
        name: head.name,
        ports: head.ports,
        declarations: body.0,
        body: body.1,
    }
}
