//! The modules of a source: by name, and which of them is the top.
//!
//! Below: `vl_design` (what the top is), `vl_found` (faults), `vl_tree` (trees). Above: what builds a design's scopes.
//! Promise: `modules_by_name` gives the first module of each name; `top_of` the module of the name that is asked for, or the
//! one that no module instantiates, exactly as `vl_design` says; `duplicate_module` the least fault of second modules of a name.
//! The time is linear, as far as hashing goes: the names that are instantiated are gathered once.
//! Not said: that memory is enough.
#![tactic(auto)]

ghost use Rattle.std.specs.Prelude.{◌≡◌, [], map, IfOk};
ghost use Rattle.std.specs.Option.{option_map};
ghost use Rattle.vl_tree.specs.SyntaxView as view;
ghost use Rattle.vl_design.specs.Walk as walk;
ghost use Rattle.vl_top.specs.Names.{FindsModules, asked, tree_of};

mod duplicates;
mod first;
mod root;
mod used;

pub use crate::duplicates::{duplicate_module, first_token};
use crate::first::first_modules;
pub use crate::first::modules_by_name;
use crate::root::only_root;
use crate::used::used_names;
use dt_core::text::Text;
use std::alloc::{AllocError, Global};
use vl_tree::item::{Module, Source};

/// The top of a source: the module of the name that is asked for, or the one that no module instantiates.
pub fn top_of<'a>(
    alloc: Global,
    source: &'a Source,
    top: Option<&Text>,
) -> Result<Option<&'a Module>, AllocError>
    ensures { let src = view.source source.now in
        IfOk result (λ m. option_map tree_of m ≡ walk.top_of src (asked top.entry)) }
{
    let modules = source.modules.as_slice();
    match top {
        Some(name) => {
            let by_name = modules_by_name(alloc, modules)?;
            Ok(by_name.get(name).copied())
        }
        None => root_of(alloc, modules),
    }
}

// The one module that no module instantiates.
fn root_of<'a>(alloc: Global, all: &'a [Module]) -> Result<Option<&'a Module>, AllocError>
    ensures { let src = map view.module_tree all.now in
        IfOk result (λ m. option_map tree_of m ≡ walk.only_one (walk.roots (walk.first_of_name [] src))) }
{
    let first = first_modules(alloc, all)?;
    let modules = first.as_slice();
    let used = used_names(alloc, modules)?;
    Ok(only_root(&used, modules))
}
