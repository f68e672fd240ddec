//! The parameters that an instance may give values to.

ghost use Rattle.std.specs.Prelude.{◌≡◌, ◌++◌, ◌∷◌, [], IfOk, OnOk, map};
ghost use Rattle.vl_tree.specs.SyntaxView as view;
ghost use Rattle.vl_design.specs.Parameters as design;
ghost use Rattle.vl_views.specs.Blocks.{items_of};
ghost use Rattle.vl_parameters.specs.Open.{header_names, texts_of, value_names};

use dt_core::text::Text;
use std::alloc::{AllocError, Global};
use vl_tree::expression::Name;
use vl_tree::item::{HeaderParameter, Item, Module, Valued};

/// The names of the parameters of a module that an instance may give, in order: those of its header, then those of its
/// items, without local ones.
pub fn open_parameters<'a>(alloc: Global, module: &'a Module) -> Result<Vec<&'a Text>, AllocError>
    ensures { let m = view.module_tree module.now in
        IfOk result (λ v. texts_of v.items ≡ design.open_parameters m) }
{
    let mut names = Vec::new(alloc);
    open_header(&mut names, module.parameters.as_slice())?;
    open_in(&mut names, module.items.as_slice())?;
    Ok(names)
}

fn add<'a>(names: &mut Vec<&'a Text>, name: &'a Text) -> Result<(), AllocError>
    ensures { OnOk result (texts_of names.new.items ≡ texts_of names.old.items ++ name.now ∷ []) }
{
    match names.push(name) {
        Ok(()) => Ok(()),
        Err(_) => Err(AllocError),
    }
}

fn open_header<'a>(
    names: &mut Vec<&'a Text>,
    parameters: &'a [HeaderParameter],
) -> Result<(), AllocError>
    ensures { let xs = header_names (map view.header_parameter parameters.now) in
        OnOk result (texts_of names.new.items ≡ texts_of names.old.items ++ xs) }
{
    for one in parameters {
        add(names, &header_name(one).text)?;
    }
    Ok(())
}

/// The name of a parameter of a header.
pub fn header_name(parameter: &HeaderParameter) -> &Name
    ensures { view.name result.now ≡ (design.header_value (view.header_parameter parameter.now)).name }
{
    match parameter {
        HeaderParameter::Declared(_, _, _, name, _) => name,
        HeaderParameter::Next(name, _) => name,
    }
}

#[cycle(open)]
fn open_in<'a>(names: &mut Vec<&'a Text>, items: &'a [Item]) -> Result<(), AllocError>
    ensures { let xs = design.open_in (items_of items.now) in
        OnOk result (texts_of names.new.items ≡ texts_of names.old.items ++ xs) }
{
    for item in items {
        open_by(names, item)?;
    }
    Ok(())
}

#[cycle(open)]
fn open_by<'a>(names: &mut Vec<&'a Text>, item: &'a Item) -> Result<(), AllocError>
    ensures { let xs = design.open_by (view.item item.now) in
        OnOk result (texts_of names.new.items ≡ texts_of names.old.items ++ xs) }
{
    match item {
        Item::Parameter(_, is_local, _, _, values) => {
            if *is_local {
                return Ok(());
            }
            open_values(names, values.as_slice())
        }
        Item::Region(_, items) => open_in(names, items.as_slice()),
        _ => Ok(()),
    }
}

fn open_values<'a>(names: &mut Vec<&'a Text>, values: &'a [Valued]) -> Result<(), AllocError>
    ensures { let xs = value_names (map view.valued values.now) in
        OnOk result (texts_of names.new.items ≡ texts_of names.old.items ++ xs) }
{
    for value in values {
        add(names, &value.name.text)?;
    }
    Ok(())
}
