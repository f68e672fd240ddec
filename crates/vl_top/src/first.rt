//! The first module of each name.

ghost use Rattle.std.specs.Prelude.{◌≡◌, [], ◌∷◌, ◌++◌, if◌then◌else◌, Some, map, IfOk, OnOk, IsTrue, is_some, nat_eq};
ghost use Rattle.std.specs.Cmp.Lexicographic.{pointwise};
ghost use Rattle.indexmap.specs.IndexMap.{get, Updates};
ghost use Rattle.vl_tree.specs.SyntaxView as view;
ghost use Rattle.vl_design.specs.Walk as walk;
ghost use Rattle.vl_top.specs.Names.{FindsModules, SetsModule, tree_of};

use dt_core::text::Text;
use indexmap::IndexMap;
use std::alloc::{AllocError, Global};
use vl_tree::item::Module;

/// The first module of each name.
pub fn modules_by_name<'a>(
    alloc: Global,
    modules: &'a [Module],
) -> Result<IndexMap<Text, &'a Module>, AllocError>
    ensures { let src = map view.module_tree modules.now in
        IfOk result (λ m. FindsModules (get (pointwise nat_eq) m) src) }
{
    let mut by_name = IndexMap::new(alloc);
    // From the last module on, so that the first of a name stands in the end.
    for i in (0..modules.len()).rev() {
        let one = &modules[i];
        let name = copied(alloc, &one.name.text)?;
        set(&mut by_name, name, one)?;
    }
    Ok(by_name)
}

/// The modules that are the first of their names, in order.
pub fn first_modules<'a>(
    alloc: Global,
    modules: &'a [Module],
) -> Result<Vec<&'a Module>, AllocError>
    ensures { let src = map view.module_tree modules.now in
        IfOk result (λ v. map tree_of v.items ≡ walk.first_of_name [] src) }
{
    let mut names = IndexMap::new(alloc);
    let mut first = Vec::new(alloc);
    for one in modules {
        let known = has_name(&names, &one.name.text);
        push_unless(&mut first, known, one)?;
        let name = copied(alloc, &one.name.text)?;
        note(&mut names, name)?;
    }
    Ok(first)
}

// Appends a module whose name isn't known.
fn push_unless<'a>(
    first: &mut Vec<&'a Module>,
    known: bool,
    one: &'a Module,
) -> Result<(), AllocError>
    ensures { let m = view.module_tree one.now in
        OnOk result (map tree_of first.new.items ≡ (if known then map tree_of first.old.items else map tree_of first.old.items ++ m ∷ [])) }
{
    if known {
        return Ok(());
    }
    match first.push(one) {
        Ok(()) => Ok(()),
        Err(_) => Err(AllocError),
    }
}

/// Whether a name was noted.
pub fn has_name(names: &IndexMap<Text, u32>, name: &Text) -> bool
    ensures { result ≡ is_some (get (pointwise nat_eq) names.now name.now) }
{
    names.get(name).is_some()
}

/// Notes a name.
pub fn note(names: &mut IndexMap<Text, u32>, name: Text) -> Result<(), AllocError>
    ensures { OnOk result (Updates (pointwise nat_eq) names.old names.new name (Some 0)) }
{
    match names.insert(name, 0) {
        Ok(_) => Ok(()),
        Err(_) => Err(AllocError),
    }
}

// Gives a name its module.
fn set<'a>(
    by_name: &mut IndexMap<Text, &'a Module>,
    name: Text,
    one: &'a Module,
) -> Result<(), AllocError>
    ensures { let m = view.module_tree one.now in
        OnOk result (SetsModule (get (pointwise nat_eq) by_name.old) (get (pointwise nat_eq) by_name.new) name m) }
{
    match by_name.insert(name, one) {
        Ok(_) => Ok(()),
        Err(_) => Err(AllocError),
    }
}

/// A text of its own.
pub fn copied(alloc: Global, name: &Text) -> Result<Text, AllocError>
    ensures { IfOk result (λ t. t ≡ name.now) }
{
    match Text::copied(alloc, name.bytes()) {
        Ok(text) => Ok(text),
        Err(_) => Err(AllocError),
    }
}
