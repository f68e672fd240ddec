//! What items and functions do to the names in sight.

ghost use Rattle.std.specs.Prelude.{◌≡◌, OnOk, map};
ghost use Rattle.vl_tree.specs.SyntaxView as view;
ghost use Rattle.vl_design.specs.Declarations.{have_name, has_name, object_names, genvar_names, local_names};
ghost use Rattle.vl_design.specs.Generate.{entered};
ghost use Rattle.vl_design.specs.Lists.{each_of};
ghost use Rattle.vl_views.specs.Blocks.{items_of};
ghost use Rattle.vl_frames.specs.Marks.{around};
ghost use Rattle.vl_frames.specs.Changes.{Becomes, genvar_noted, hidden, passed};
ghost use Rattle.vl_frames.specs.Named.{named, net_named, variable_named, input_named, function_named, local_named, value_named};

use crate::frames::Frames;
use std::alloc::{AllocError, Global};
use vl_tree::expression::Name;
use vl_tree::item::{Function, FunctionDeclaration, FunctionPort, Item, Net, Valued, Variable};

/// The names that items of the innermost scope declare hide outer ones, wherever in it they stand.
pub fn enter_items(alloc: Global, frames: &mut Frames, items: &[Item]) -> Result<(), AllocError>
    ensures { let is = items_of items.now in
        OnOk result (Becomes frames.old frames.new (entered is (around frames.old))) }
{
    hide_objects(alloc, frames, items)?;
    note_genvars(alloc, frames, items)?;
    Ok(())
}

// ---- objects

/// Objects that items declare hide outer names.
#[cycle(objects)]
pub fn hide_objects(alloc: Global, frames: &mut Frames, items: &[Item]) -> Result<(), AllocError>
    ensures { let is = items_of items.now in
        OnOk result (Becomes frames.old frames.new (hidden (have_name object_names is) (around frames.old))) }
{
    for item in items {
        hide_object(alloc, frames, item)?;
    }
    Ok(())
}

/// Objects that an item declares hide outer names.
#[cycle(objects)]
pub fn hide_object(alloc: Global, frames: &mut Frames, item: &Item) -> Result<(), AllocError>
    ensures { let i = view.item item.now in
        OnOk result (Becomes frames.old frames.new (hidden (has_name object_names i) (around frames.old))) }
{
    match item {
        Item::Region(_, items) => hide_objects(alloc, frames, items.as_slice()),
        Item::Directed(_, names) => hide_names(alloc, frames, names.as_slice()),
        Item::Nets(_, _, _, nets) => hide_nets(alloc, frames, nets.as_slice()),
        Item::Registers(_, _, _, variables) => hide_variables(alloc, frames, variables.as_slice()),
        Item::Integer(_, variables) => hide_variables(alloc, frames, variables.as_slice()),
        Item::Function(function) => frames.hide(alloc, &function.name.text),
        _ => Ok(()),
    }
}

fn hide_names(alloc: Global, frames: &mut Frames, names: &[Name]) -> Result<(), AllocError>
    ensures { let f = named names.now in
        OnOk result (Becomes frames.old frames.new (hidden f (around frames.old))) }
{
    for name in names {
        frames.hide(alloc, &name.text)?;
    }
    Ok(())
}

fn hide_nets(alloc: Global, frames: &mut Frames, nets: &[Net]) -> Result<(), AllocError>
    ensures { let f = net_named nets.now in
        OnOk result (Becomes frames.old frames.new (hidden f (around frames.old))) }
{
    for net in nets {
        frames.hide(alloc, &net.name.text)?;
    }
    Ok(())
}

fn hide_variables(
    alloc: Global,
    frames: &mut Frames,
    variables: &[Variable],
) -> Result<(), AllocError>
    ensures { let f = variable_named variables.now in
        OnOk result (Becomes frames.old frames.new (hidden f (around frames.old))) }
{
    for variable in variables {
        frames.hide(alloc, &variable_name(variable).text)?;
    }
    Ok(())
}

/// The name that a variable declares.
pub fn variable_name(variable: &Variable) -> &Name
    ensures { view.name result.now ≡ Rattle.vl_design.specs.Declarations.variable_name (view.variable variable.now) }
{
    match variable {
        Variable::Plain(name) => name,
        Variable::Valued(name, _) => name,
        Variable::Memory(name, _) => name,
    }
}

// ---- genvars and parameters

/// Genvars that items declare are in sight in the whole scope.
#[cycle(genvars)]
pub fn note_genvars(alloc: Global, frames: &mut Frames, items: &[Item]) -> Result<(), AllocError>
    ensures { let is = items_of items.now in
        OnOk result (Becomes frames.old frames.new (genvar_noted (have_name genvar_names is) (around frames.old))) }
{
    for item in items {
        note_genvar(alloc, frames, item)?;
    }
    Ok(())
}

/// Genvars that an item declares are in sight in the whole scope.
#[cycle(genvars)]
pub fn note_genvar(alloc: Global, frames: &mut Frames, item: &Item) -> Result<(), AllocError>
    ensures { let i = view.item item.now in
        OnOk result (Becomes frames.old frames.new (genvar_noted (has_name genvar_names i) (around frames.old))) }
{
    match item {
        Item::Region(_, items) => note_genvars(alloc, frames, items.as_slice()),
        Item::Genvar(_, names) => note_names(alloc, frames, names.as_slice()),
        _ => Ok(()),
    }
}

fn note_names(alloc: Global, frames: &mut Frames, names: &[Name]) -> Result<(), AllocError>
    ensures { let f = named names.now in
        OnOk result (Becomes frames.old frames.new (genvar_noted f (around frames.old))) }
{
    for name in names {
        frames.note_genvar(alloc, &name.text)?;
    }
    Ok(())
}

/// Parameters hide genvars of their names.
pub fn pass_values(alloc: Global, frames: &mut Frames, values: &[Valued]) -> Result<(), AllocError>
    ensures { let f = value_named values.now in
        OnOk result (Becomes frames.old frames.new (passed f (around frames.old))) }
{
    for value in values {
        frames.pass(alloc, &value.name.text)?;
    }
    Ok(())
}

// ---- functions

/// The names of a function hide outer ones: its own, and those of its inputs and variables.
pub fn hide_function(
    alloc: Global,
    frames: &mut Frames,
    function: &Function,
) -> Result<(), AllocError>
    ensures { let f = function_named (view.function function.now) in
        OnOk result (Becomes frames.old frames.new (hidden f (around frames.old))) }
{
    frames.hide(alloc, &function.name.text)?;
    hide_inputs(alloc, frames, function.ports.as_slice())?;
    hide_declarations(alloc, frames, function.declarations.as_slice())?;
    Ok(())
}

fn hide_inputs(alloc: Global, frames: &mut Frames, ports: &[FunctionPort]) -> Result<(), AllocError>
    ensures { let f = input_named ports.now in
        OnOk result (Becomes frames.old frames.new (hidden f (around frames.old))) }
{
    for port in ports {
        frames.hide(alloc, &input_name(port).text)?;
    }
    Ok(())
}

/// The name of an input of a function's header.
pub fn input_name(port: &FunctionPort) -> &Name
    ensures { view.name result.now ≡ Rattle.vl_design.specs.Declarations.input_name (view.function_port port.now) }
{
    match port {
        FunctionPort::Declared(_, _, _, name) => name,
        FunctionPort::Named(name) => name,
    }
}

fn hide_declarations(
    alloc: Global,
    frames: &mut Frames,
    declarations: &[FunctionDeclaration],
) -> Result<(), AllocError>
    ensures { let f = local_named declarations.now in
        OnOk result (Becomes frames.old frames.new (hidden f (around frames.old))) }
{
    for declaration in declarations {
        hide_names(alloc, frames, names_of(declaration))?;
    }
    Ok(())
}

// The names that a declaration in a function declares.
fn names_of(declaration: &FunctionDeclaration) -> &[Name]
    ensures { map view.name result.now ≡ local_names (view.function_declaration declaration.now) }
{
    match declaration {
        FunctionDeclaration::Inputs(_, _, _, names) => names.as_slice(),
        FunctionDeclaration::Variables(_, _, _, names) => names.as_slice(),
        FunctionDeclaration::Integers(_, names) => names.as_slice(),
    }
}
